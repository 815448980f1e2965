// Unpacking under 5.2 and 5.3: what is left to decide once the parts are found, then the points, and under 5.3 their numbers
// restored; and unpacking under the one of the two that Section 5 names.
#![tactic(auto)]

ghost use Rattle.std.specs.Prelude.{◌≡◌, List, ◌*◌, ◌≤◌, length, take};
ghost use Rattle.format.specs.Refusals.{limit, first, left};
ghost use Rattle.format.specs.Layout.{point_size};
ghost use Rattle.format.specs.Unpacking.{unpack52};
ghost use Rattle.format.specs.Differences.{descriptors_of, restored_from, left53, unpack53};
ghost use Rattle.format.specs.Section5.{unpack_section5};
ghost use Rattle.format.specs.declared.DecodedValue.{DecodedValue};
ghost use Rattle.diff.specs.Restoring.{Orderly, Holding};
ghost use Rattle.decoder.specs.Deciding.{last_refusals};

use format::{DecodedValue, Differencing, Named, POINT_SIZE, Refusal, Template};
use groups::Groups;

// 9, then 10, "a lent buffer is too small": what is left to decide once the parts are found, for so many places lent. 5.2 and 5.3
// share it.
fn check_points(points: usize, declared: u32, room: usize) -> Result<(), Refusal>
    ensures { result ≡ first Err (last_refusals declared room points) (Ok tt) }
{
    group_fields::check_count(points, declared)?;
    if room < declared as usize {
        return Err(Refusal::Room);
    }
    Ok(())
}

// Template 5.2: the points of a payload, nine octets each.
pub fn unpack_complex(
    template: Template,
    declared: u32,
    payload: &[u8],
    points: &mut [u8],
) -> Result<u32, Refusal>
    ensures { left result points.new ≡ unpack52 template declared payload.now points.old }
{
    let located = group_fields::located_complex(template, payload)?;
    check_points(located.points, declared, points.len() / POINT_SIZE)?;
    let groups = Groups {
        template,
        payload,
        places: located.places,
    };
    complex::store_points(&groups, points);
    Ok(declared)
}

// Restores the packed points. 12, "last": "12 leaves number 0 and mark 0 in the declared places".
fn unpack_differences(
    differencing: Differencing,
    declared: u32,
    payload: &[u8],
    points: &mut [u8],
) -> Result<u32, Refusal>
    requires { Orderly differencing × (declared ≤ limit) × (declared * point_size ≤ length points.old) }
    ensures { (packed : List DecodedValue) → Holding packed (take (declared * point_size) points.old) → left result points.new ≡ left53 declared (restored_from differencing.order (descriptors_of differencing payload.now) packed) points.old }
{
    let count = declared as usize;
    match diff::restore(differencing, payload, &mut points[..count * POINT_SIZE]) {
        Ok(()) => Ok(declared),
        Err(refusal) => {
            layout::store_same(points, 0, count, DecodedValue::Normal(0));
            Err(refusal)
        }
    }
}

// Template 5.3: the points of a payload, nine octets each. 5.2 and 5.3 stay two functions: each has refusals of its own before
// `check_points`, and 5.3 a step more behind `store_points`. With one call of that for both, 5.2 takes 3 to 6 % more instructions.
pub fn unpack_spatial(
    template: Template,
    differencing: Differencing,
    declared: u32,
    payload: &[u8],
    points: &mut [u8],
) -> Result<u32, Refusal>
    ensures { left result points.new ≡ unpack53 template differencing declared payload.now points.old }
{
    let located = group_fields::located_spatial(template, differencing, payload)?;
    check_points(located.points, declared, points.len() / POINT_SIZE)?;
    let groups = Groups {
        template,
        payload,
        places: located.places,
    };
    complex::store_points(&groups, points);
    unpack_differences(differencing, declared, payload, points)
}

// Unpacking under the template that Section 5 names.
pub fn unpack(section5: &[u8], payload: &[u8], points: &mut [u8]) -> Result<u32, Refusal>
    ensures { left result points.new ≡ unpack_section5 section5.now payload.now points.old }
{
    match section5::named(section5)? {
        Named::Complex(declared, template) => unpack_complex(template, declared, payload, points),
        Named::Spatial(declared, template, differencing) => {
            unpack_spatial(template, differencing, declared, payload, points)
        }
    }
}
