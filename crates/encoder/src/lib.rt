// Packing, after the Rust's encoder: groups, template numbers and payload of a list.
#![tactic(auto)]

ghost use Rattle.std.specs.Prelude.{◌≡◌, ◌<◌, ◌≤◌, ◌^◌, length};
ghost use Rattle.format.specs.Lists.{◌over◌};
ghost use Rattle.format.specs.Layout.{numbers_in, in_fours};
ghost use Rattle.format.specs.Packing.{summary_numbers, summary_size, pack_by, pack};

use format::{OctetPlace, Packed, Refusal, Template};
use grouping::Rule;
use numbers::{Numbers, Records};

// "Packing's eight template numbers, in the order of the cases, the group count and the payload length go to a lent 40 octets"
fn store_summary(template: Template, octets: OctetPlace, summary: &mut [u8])
    requires { (summary_size ≤ length summary.old) × (octets.0 < 2 ^ 32) }
    ensures { summary.new ≡ in_fours (summary_numbers template template.groups octets.0) over summary.old }
{
    let widths = template.widths;
    let lengths = template.lengths;
    let numbers = [
        template.width as u32,
        template.groups,
        widths.reference as u32,
        widths.bits as u32,
        lengths.reference,
        lengths.increment as u32,
        lengths.last,
        lengths.bits as u32,
        template.groups,
        octets.0 as u32,
    ];
    layout::store_all(&numbers, summary);
}

// Packs the numbers of a list by a rule that adds a cost for ending a group. "Packing: 13, 10 for the group list, 10 for the
// payload."; the 40 octets are "tested for 10 before the group list and changed only by success".
fn pack_by(
    added: u16,
    lookahead: u32,
    numbers: &Numbers,
    groups: &mut [u8],
    payload: &mut [u8],
    summary: &mut [u8],
) -> Result<Packed, Refusal>
    ensures { record { answer = result; groups = groups.new; payload = payload.new; summary = summary.new } ≡ pack_by added lookahead numbers.now groups.old payload.old summary.old }
{
    let rule = Rule::of(numbers, lookahead, added)?;
    if summary.len() < format::SUMMARY_SIZE {
        return Err(Refusal::Room);
    }
    let count = rule.store_groups(groups)?;
    let records = Records::of(groups, count as usize);
    let template = coding::template_of(numbers.greatest(), &records);
    let octets = section7::write_section7(template, numbers, &records, payload)?;
    store_summary(template, octets, summary);
    Ok(Packed { template, octets })
}

// Packs the numbers of a list: groups, payload and summary go to lent octets. Document 01's rule adds no cost.
pub fn pack(
    lookahead: u32,
    numbers: &[u8],
    groups: &mut [u8],
    payload: &mut [u8],
    summary: &mut [u8],
) -> Result<Packed, Refusal>
    ensures { record { answer = result; groups = groups.new; payload = payload.new; summary = summary.new } ≡ pack lookahead (numbers_in numbers.now) groups.old payload.old summary.old }
{
    pack_by(
        0,
        lookahead,
        &Numbers::of(numbers),
        groups,
        payload,
        summary,
    )
}
