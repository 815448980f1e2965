// Points of the groups under 5.2 and 5.3, after the Rust's complex.rs: from the group fields and the values to lent octets.
#![tactic(auto)]

ghost use Rattle.std.specs.Prelude.{◌≡◌, true, ◌+◌, ◌*◌, ◌≤◌, length};
ghost use mathlib.Core.List.{flat_map};
ghost use Rattle.std.proofs.lemmas.List.Edits.{sets};
ghost use Rattle.format.specs.Lists.{listed, ◌over◌};
ghost use Rattle.format.specs.Layout.{point_size, point_octets};
ghost use Rattle.format.specs.Unpacking.{said_by, points_up_to};
ghost use Rattle.groups.specs.Groups.{codes_in};
ghost use Rattle.groups.specs.Packed.{value_point, Limited, all_there};
ghost use Rattle.complex.specs.Room.{Roomy};

use format::{BitPlace, Template};
use groups::{Groups, PackedGroup, Walk};
use layout::InOctets;

// The points of a group whose values begin at a place, one by one, where eight octets are THERE from each value on or not. The
// place moves on by the width: with a product in its stead the compiler leaves the tests for missing in the loop. Template and
// octets come by value: behind `&Groups` each point takes 28.5 instructions, and not 26.0.
fn store_each<const THERE: bool>(
    template: Template,
    payload: &[u8],
    place: BitPlace,
    group: PackedGroup,
    points: &mut [u8],
    from: usize,
)
    requires limits { (template.width ≤ 31) × Limited group place.0 × ((from + group.length) * point_size ≤ length points.old) }
    requires there { THERE ≡ true → all_there group payload.now place.0 ≡ true }
    ensures { points.new ≡ sets points.old (from * point_size) (flat_map point_octets (listed group.length (value_point template group payload.now place.0))) }
{
    let mut bit = place.0;
    for k in 0..group.length {
        let point = group.point_at::<THERE>(template, payload, BitPlace(bit));
        point.store(points, from + k);
        bit += group.width;
    }
}

// The points of a group. With width 0 all are one, which is made once.
fn store_group_points(
    template: Template,
    payload: &[u8],
    place: BitPlace,
    group: PackedGroup,
    points: &mut [u8],
    from: usize,
)
    requires { (template.width ≤ 31) × Limited group place.0 × ((from + group.length) * point_size ≤ length points.old) }
    ensures { points.new ≡ sets points.old (from * point_size) (flat_map point_octets (listed group.length (value_point template group payload.now place.0))) }
{
    if group.width == 0 {
        let point = groups::point_of(template, group.width, group.reference, 0);
        layout::store_same(points, from, group.length, point);
    } else if group.is_there(payload, place) {
        store_each::<true>(template, payload, place, group, points, from);
    } else {
        store_each::<false>(template, payload, place, group, points, from);
    }
}

// The points of all groups, of which none is refused.
pub fn store_points(groups: &Groups, points: &mut [u8])
    requires { Roomy groups.now.template (codes_in groups.now) (length points.old) }
    ensures { points.new ≡ flat_map point_octets (points_up_to groups.now.template (said_by groups.now.places.references.0 groups.now.template groups.now.payload.now) groups.now.template.groups) over points.old }
{
    // A copy of their own: what is stored cannot change it, so the compiler need not read it anew.
    let groups = *groups;
    let values = places::first_bit(groups.places.values);
    let mut walk = Walk::START;
    for g in 0..groups.template.groups as usize {
        let group = groups.group(g);
        let place = BitPlace(values.0 + walk.bits);
        store_group_points(
            groups.template,
            groups.payload,
            place,
            group,
            points,
            walk.points,
        );
        walk = walk.past(group.width, group.length);
    }
}
