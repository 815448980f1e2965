// The C calls: each a few lines over the crates below. include/cleatmow.h declares them, and the crate `cleatmow_c` exports them.
// C passes a template's numbers one by one, and lends the values that a call leaves: so do these.
#![tactic(auto)]

ghost use Rattle.std.specs.Prelude.{◌≡◌};
ghost use Rattle.format.specs.Refusals.{refusal_number, answer_number, left};
ghost use Rattle.format.specs.Template.{template_by};
ghost use Rattle.format.specs.Unpacking.{unpack52};
ghost use Rattle.format.specs.Differences.{unpack53};
ghost use Rattle.format.specs.Section5.{read_section5, write_section5, unpack_section5};
ghost use Rattle.format.specs.Point.{point_section5};
ghost use Rattle.format.specs.RunLength.{run_length};
ghost use Rattle.format.specs.WritingRunLength.{write_run_length};
ghost use Rattle.format.specs.Layout.{numbers_in, levels_in};
ghost use Rattle.format.specs.Packing.{pack};
ghost use Rattle.cleatmow.specs.Calls.{called, given_differencing, called_point, called_write, called_pack};

use format::{Differencing, Refusal};

// "A refusal carries its number and nothing else."
pub fn refusal_number(refusal: Refusal) -> u32
    ensures { result ≡ refusal_number refusal }
{
    refusal as u32
}

// "The call returns the refusal's number, or 0."
fn answer_number<T: Drop>(answer: Result<T, Refusal>) -> u32
    ensures { result ≡ answer_number answer }
{
    match answer {
        Ok(_) => 0,
        Err(refusal) => refusal_number(refusal),
    }
}

// Template 5.2: the points of a payload, nine octets each.
pub fn cleatmow_unpack_complex(
    declared: u32,
    bits: u8,
    splitting: u8,
    missing: u8,
    groups: u32,
    widthref: u8,
    widthbits: u8,
    lenref: u32,
    leninc: u8,
    lenlast: u32,
    lenbits: u8,
    payload: &[u8],
    points: &mut [u8],
) -> u32
    ensures { left result points.new ≡ called (unpack52 (template_by bits splitting missing groups widthref widthbits lenref leninc lenlast lenbits) declared payload.now points.old) }
{
    let template = layout::template_by(
        bits, splitting, missing, groups, widthref, widthbits, lenref, leninc, lenlast, lenbits,
    );
    answer_number(decoder::unpack_complex(template, declared, payload, points))
}

// Template 5.3: the same numbers, then the order and the octets of a descriptor.
pub fn cleatmow_unpack_spatial(
    declared: u32,
    bits: u8,
    splitting: u8,
    missing: u8,
    groups: u32,
    widthref: u8,
    widthbits: u8,
    lenref: u32,
    leninc: u8,
    lenlast: u32,
    lenbits: u8,
    order: u8,
    octets: u8,
    payload: &[u8],
    points: &mut [u8],
) -> u32
    ensures { left result points.new ≡ called (unpack53 (template_by bits splitting missing groups widthref widthbits lenref leninc lenlast lenbits) (given_differencing order octets) declared payload.now points.old) }
{
    let template = layout::template_by(
        bits, splitting, missing, groups, widthref, widthbits, lenref, leninc, lenlast, lenbits,
    );
    let differencing = Differencing { order, octets };
    answer_number(decoder::unpack_spatial(template, differencing, declared, payload, points))
}

// Section 5's fields, four octets each, one for each row of its table.
pub fn cleatmow_read_section5(section5: &[u8], fields: &mut [u8]) -> u32
    ensures { left result fields.new ≡ called (read_section5 section5.now fields.old) }
{
    answer_number(section5::read_section5(section5, fields))
}

// Section 5 of such fields.
pub fn cleatmow_write_section5(fields: &[u8], section5: &mut [u8]) -> u32
    ensures { left result section5.new ≡ called (write_section5 (numbers_in fields.now) section5.old) }
{
    answer_number(section5::write_section5(fields, section5))
}

// The points of a payload under the template that Section 5 names, nine octets each.
pub fn cleatmow_unpack(section5: &[u8], payload: &[u8], points: &mut [u8]) -> u32
    ensures { left result points.new ≡ called (unpack_section5 section5.now payload.now points.old) }
{
    answer_number(decoder::unpack(section5, payload, points))
}

// One point of a payload under template 5.2, from its place in the list: its mark, and its number.
pub fn cleatmow_point(
    place: u32,
    section5: &[u8],
    payload: &[u8],
    mark: &mut u8,
    number: &mut i64,
) -> u32
    ensures { record { number = result; mark = mark.new; held = number.new } ≡ called_point (point_section5 place section5.now payload.now) mark.old number.old }
{
    let answer = point::point(section5, payload, place);
    if let Ok(point) = answer {
        *mark = layout::mark_of(point);
        *number = layout::held_by(point);
    }
    answer_number(answer)
}

// Template 7.200: the levels of a payload, two octets each.
pub fn cleatmow_run_length(
    bits: u8,
    greatest: u16,
    declared: u32,
    payload: &[u8],
    levels: &mut [u8],
) -> u32
    ensures { left result levels.new ≡ called (run_length bits greatest declared payload.now levels.old) }
{
    answer_number(run_length::run_length(bits, greatest, declared, payload, levels))
}

// Levels, two octets each, as a payload of template 7.200, and how many octets that has.
pub fn cleatmow_write_run_length(
    bits: u8,
    greatest: u16,
    levels: &[u8],
    payload: &mut [u8],
    octets: &mut u32,
) -> u32
    ensures { record { number = result; payload = payload.new; octets = octets.new } ≡ called_write (write_run_length bits greatest (levels_in levels.now) payload.old) octets.old }
{
    let answer = runs::write_run_length(bits, greatest, levels, payload);
    if let Ok(span) = answer {
        *octets = span.0 as u32;
    }
    answer_number(answer)
}

// Packing: the groups of a list, sixteen octets each, the payload, and the summary of 40 octets.
pub fn cleatmow_pack(
    lookahead: u32,
    numbers: &[u8],
    groups: &mut [u8],
    payload: &mut [u8],
    summary: &mut [u8],
) -> u32
    ensures { record { number = result; groups = groups.new; payload = payload.new; summary = summary.new } ≡ called_pack (pack lookahead (numbers_in numbers.now) groups.old payload.old summary.old) }
{
    answer_number(encoder::pack(lookahead, numbers, groups, payload, summary))
}
