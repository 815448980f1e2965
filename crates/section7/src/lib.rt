// The payload of a packing, after the Rust's `write_section7`: the codes of the groups, and their values.
#![tactic(auto)]

ghost use Rattle.std.specs.Prelude.{◌≡◌, map, ◌++◌, false, leb, ◌+◌, ◌*◌, ◌^◌, ◌<◌, ◌≤◌, length};
ghost use Rattle.std.proofs.lemmas.List.Edits.{sets};
ghost use Rattle.format.specs.Lists.{any_of};
ghost use Rattle.format.specs.Bits.{string_of, rounded_up, padded};
ghost use Rattle.format.specs.Refusals.{limit, left};
ghost use Rattle.format.specs.Packing.{value_string, template_of, payload_of};
ghost use Rattle.laws.specs.Groups.{own_numbers, own_groups, RecordOf};
ghost use Rattle.writer.specs.Pen.{Ready, Moved};
ghost use Rattle.numbers.specs.Records.{Recorded};
ghost use Rattle.section7.specs.Parts.{bits_of, code_of, Codable, values_of, group_bits, value_bits, FewBits, Countable, payload_lent};

use format::{Group, Lengths, OctetPlace, Refusal, Template, Widths};
use numbers::{Numbers, Records};
use writer::Pen;

// What a part of the payload codes of a group. A closure for each would be shorter; its proof does not close, since the check
// counts no answer to what a call with a closure asks.
#[derive(Clone, Copy)]
pub enum Coding {
    // The least number, at the number width.
    References(u8),

    // The width less the width reference.
    Widths(Widths),

    // The length less the length reference, in steps of the increment.
    Lengths(Lengths),
}

impl Coding {
    ghost use Rattle.section7.specs.Parts.{bits_of, code_of, CodedBy};

    fn bits(self) -> usize
        ensures { result ≡ bits_of self }
    {
        match self {
            Coding::References(bits) => bits as usize,
            Coding::Widths(widths) => widths.bits as usize,
            Coding::Lengths(lengths) => lengths.bits as usize,
        }
    }

    fn code_of(self, group: Group) -> u32
        requires { CodedBy self group }
        ensures { result ≡ code_of self group }
    {
        match self {
            Coding::References(_) => group.least,
            Coding::Widths(widths) => group.width - widths.reference as u32,
            Coding::Lengths(lengths) => {
                (group.length - lengths.reference) / lengths.increment as u32
            }
        }
    }
}

// A code of each group. Records are read and the payload is written, here and below: they come together in these functions alone.
fn put_codes(coding: Coding, records: &Records, pen: Pen, payload: &mut [u8]) -> Pen
    requires codes { Codable coding records.now }
    requires ready { Ready pen (length records.now * bits_of coding) payload.old }
    ensures { Moved pen (string_of (bits_of coding) (map (code_of coding) records.now)) payload.old payload.new result }
{
    let bits = coding.bits();
    let mut here = pen;
    for k in 0..records.len() {
        let code = coding.code_of(records.at(k));
        here = here.put(code as u64, bits, payload);
    }
    here
}

// "each starting on an octet": a code of each group, and the numbers that stand behind them.
fn write_codes(
    coding: Coding,
    records: &Records,
    behind: &[u32],
    place: OctetPlace,
    payload: &mut [u8],
)
    requires codes { 0 < bits_of coding → Codable coding records.now × (any_of (leb (2 ^ bits_of coding)) behind.now ≡ false) }
    requires room { place.0 + rounded_up ((length records.now + length behind.now) * bits_of coding) ≤ length payload.old }
    ensures { payload.new ≡ sets payload.old place.0 (padded (string_of (bits_of coding) (map (code_of coding) records.now ++ behind.now))) }
{
    let bits = coding.bits();
    if bits == 0 {
        return;
    }
    let pen = put_codes(coding, records, Pen::at(place), payload);
    let pen = pen.put_all(behind, bits, payload);
    pen.finish(payload);
}

// The values of a group: its numbers less the least.
fn put_group(numbers: &Numbers, group: Group, pen: Pen, payload: &mut [u8]) -> Pen
    requires recorded { RecordOf numbers.now group × FewBits group }
    requires ready { Ready pen (group_bits group) payload.old }
    ensures { Moved pen (values_of (own_numbers numbers.now group)) payload.old payload.new result }
{
    let start = group.start as usize;
    let width = group.width as usize;
    let mut here = pen;
    for k in 0..group.length as usize {
        let value = numbers.at(start + k) - group.least;
        here = here.put(value as u64, width, payload);
    }
    here
}

// "Values follow group after group with no alignment between them."
fn put_values(numbers: &Numbers, records: &Records, pen: Pen, payload: &mut [u8]) -> Pen
    requires recorded { Recorded numbers.now records.now }
    requires ready { Ready pen (value_bits records.now) payload.old }
    ensures { Moved pen (value_string (own_groups numbers.now records.now)) payload.old payload.new result }
{
    let mut here = pen;
    for k in 0..records.len() {
        here = put_group(numbers, records.at(k), here, payload);
    }
    here
}

// The bits of all values.
fn value_bits(records: &Records) -> usize
    requires { Countable records.now }
    ensures { (result ≡ value_bits records.now) × (result ≤ length records.now * (limit * 32)) }
{
    let mut bits = 0;
    for k in 0..records.len() {
        let group = records.at(k);
        bits += group.length as usize * group.width as usize;
    }
    bits
}

// "each starting on an octet: [..] group references at the number width, width codes, length codes, values": the payload of the
// groups that the records speak of, or 10 where it has no room.
pub fn write_section7(
    template: Template,
    numbers: &Numbers,
    records: &Records,
    payload: &mut [u8],
) -> Result<OctetPlace, Refusal>
    requires { Recorded numbers.now records.now × (template ≡ template_of numbers.now (own_groups numbers.now records.now)) }
    ensures { left result payload.new ≡ payload_lent (payload_of template (own_groups numbers.now records.now)) payload.old }
{
    let places = places::parts_of(template, 0, value_bits(records));
    if payload.len() < places.end.0 {
        return Err(Refusal::Room);
    }
    let references = Coding::References(template.width);
    let widths = Coding::Widths(template.widths);
    let lengths = Coding::Lengths(template.lengths);
    write_codes(references, records, &[], places.references, payload);
    write_codes(widths, records, &[], places.widths, payload);
    // "The last length code is written 0."
    write_codes(lengths, &records.but_last(), &[0], places.lengths, payload);
    let pen = put_values(numbers, records, Pen::at(places.values), payload);
    pen.finish(payload);
    Ok(places.end)
}
