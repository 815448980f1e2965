// Document 02, No. 3: one point of a map under 5.2, from its place in the list. The group that holds the place is found, and
// of it one reference and one value are read. Nothing is lent.
#![tactic(auto)]

ghost use Rattle.std.specs.Prelude.{◌≡◌};
ghost use Rattle.format.specs.Point.{point52, point_section5};
ghost use Rattle.point.specs.Holding.{held52};

use format::{DecodedValue, Named, Refusal, Template};
use groups::{Groups, HolderGroup};

// The group that holds a place of the list, or why there is none: 1 to 9 as for unpacking, then "15 when the place is not below
// the declared count".
pub fn held_complex(
    template: Template,
    declared: u32,
    payload: &[u8],
    place: u32,
) -> Result<HolderGroup, Refusal>
    ensures { result ≡ held52 place template declared payload.now }
{
    let surveyed = group_fields::surveyed_complex(template, payload, place as usize)?;
    group_fields::check_count(surveyed.points, declared)?;
    if declared <= place {
        return Err(Refusal::Place);
    }
    let groups = Groups {
        template,
        payload,
        places: surveyed.places,
    };
    Ok(groups.holder(surveyed.holder))
}

// Template 5.2: "answer one point (mark and number) from its place in the list".
pub fn point_complex(
    template: Template,
    declared: u32,
    payload: &[u8],
    place: u32,
) -> Result<DecodedValue, Refusal>
    ensures { result ≡ point52 place template declared payload.now }
{
    let held = held_complex(template, declared, payload, place)?;
    Ok(held.point_at(template, payload, place as usize))
}

// The same by the octets of Section 5. One of template 5.3 is none of 5.2.
pub fn point(section5: &[u8], payload: &[u8], place: u32) -> Result<DecodedValue, Refusal>
    ensures { result ≡ point_section5 place section5.now payload.now }
{
    match section5::named(section5)? {
        Named::Complex(declared, template) => point_complex(template, declared, payload, place),
        Named::Spatial(_, _, _) => Err(Refusal::Section5),
    }
}
