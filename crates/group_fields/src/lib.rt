// Group fields under 5.2 and 5.3: where the parts are, what the groups come to, which of them holds a place of the
// list, and the first refusal that applies, as far as 7 for the values; then the test of 9.
#![tactic(auto)]

ghost use Rattle.std.specs.Prelude.{◌≡◌, ◌++◌, ◌≤◌, length};
ghost use Rattle.format.specs.Refusals.{first, count_refusals};
ghost use Rattle.format.specs.Template.{descriptors_end, kind_refusals, field_refusals};
ghost use Rattle.format.specs.Unpacking.{group_refusals, located_refusals, locate52, part_of};
ghost use Rattle.format.specs.Differences.{locate53};
ghost use Rattle.group_fields.specs.Parts.{OrderedIn};
ghost use Rattle.group_fields.specs.Surveying.{surveyed_in, survey52, located_in};

use format::{Differencing, Located, Part, Places, Refusal, Template};
use groups::{Groups, Walk};

// Where the parts of a payload are, how many points its groups come to, and the last group that begins at a place of the
// list or before it: it holds the place, if that is below the count.
#[derive(Clone, Copy)]
pub struct Surveyed {
    pub places: Places,
    pub points: usize,
    pub holder: Walk,
}

// Where the parts are, without the group.
impl From<Surveyed> for Located {
    ghost from_gives = { λ surveyed located. located ≡ located_in surveyed };

    fn from(surveyed: Surveyed) -> Self {
        Located {
            places: surveyed.places,
            points: surveyed.points,
        }
    }
}

// "8, 7 for the values": no group may be too wide or too long, and the payload ends with or after the last value's octet. The
// one walk that decides this finds the group that holds a place on its way.
fn groups_surveyed(groups: &Groups, place: usize) -> Result<Surveyed, Refusal>
    ensures { let start = groups.now.places.references.0 in result ≡ surveyed_in (group_refusals start groups.now.template) start groups.now.template groups.now.payload.now place }
{
    let mut walk = Walk::START;
    let mut holder = Walk::START;
    for g in 0..groups.template.groups as usize {
        let width = groups.width_of(g);
        if 31 < width {
            return Err(Refusal::GroupSize);
        }
        let length = groups.length_of(g);
        if 4294967295 < length {
            return Err(Refusal::GroupSize);
        }
        holder = holder.nearer(walk, place);
        walk = walk.past(width, length);
    }
    let ended = places::parts_of(groups.template, groups.places.references.0, walk.bits);
    if groups.payload.len() < ended.end.0 {
        return Err(Refusal::Short);
    }
    Ok(Surveyed {
        places: ended,
        points: walk.points,
        holder,
    })
}

// 1, then 2, which 5.2 and 5.3 share.
#[tactic(auto, using(std::proofs::lemmas::Bool::Decides::nat_tests), unfolding(format::specs::Refusals::first))]
fn check_kind(template: Template) -> Result<(), Refusal>
    ensures { result ≡ first Err (kind_refusals template) (Ok tt) }
{
    if template.splitting != 1 {
        return Err(Refusal::Splitting);
    }
    if 2 < template.management {
        return Err(Refusal::Management);
    }
    Ok(())
}

// 6, then 5, which they share too.
#[tactic(auto, using(std::proofs::lemmas::Bool::Decides::nat_tests), unfolding(format::specs::Refusals::first))]
fn check_fields(template: Template) -> Result<(), Refusal>
    ensures { result ≡ first Err (field_refusals template) (Ok tt) }
{
    if template.groups == 0 || format::LIMIT < template.groups {
        return Err(Refusal::GroupCount);
    }
    if 31 < template.width || 32 < template.widths.bits || 32 < template.lengths.bits {
        return Err(Refusal::Width);
    }
    Ok(())
}

// From 6 on, which 5.2 and 5.3 share: the references begin at octet `start`. 7 for the group fields comes before the groups.
fn surveyed_from(
    template: Template,
    start: usize,
    payload: &[u8],
    place: usize,
) -> Result<Surveyed, Refusal>
    requires { start ≤ 12 }
    ensures { result ≡ surveyed_in (located_refusals start template) start template payload.now place }
{
    check_fields(template)?;
    let places = places::parts_of(template, start, 0);
    if payload.len() < places.values.0 {
        return Err(Refusal::Short);
    }
    let groups = Groups {
        template,
        payload,
        places,
    };
    groups_surveyed(&groups, place)
}

// "Order for 5.2: 1, 2, 6, 5, 7 for the group fields, 8, 7 for the values". Template and payload come by themselves: nothing is known
// of both before this. Once it is, `Groups` holds them.
pub fn surveyed_complex(
    template: Template,
    payload: &[u8],
    place: usize,
) -> Result<Surveyed, Refusal>
    ensures { result ≡ survey52 template payload.now place }
{
    check_kind(template)?;
    surveyed_from(template, 0, payload, place)
}

// `surveyed_complex`, where no place is asked for.
pub fn located_complex(template: Template, payload: &[u8]) -> Result<Located, Refusal>
    ensures { result ≡ locate52 template payload.now }
{
    surveyed_complex(template, payload, 0).map(Located::from)
}

// Where the descriptors end: as many first values as the order says, and the minimum.
fn descriptors_end(differencing: Differencing) -> usize
    requires { (differencing.order ≤ 2) × (differencing.octets ≤ 4) }
    ensures { (result ≡ descriptors_end differencing) × (result ≤ 12) }
{
    (differencing.order as usize + 1) * differencing.octets as usize
}

// "For 5.3: 3, 1, 2, 4, 7 for descriptors, then from 6 on as for 5.2". Not one function with `located_complex`: each has refusals
// of its own, in an order of its own.
pub fn located_spatial(
    template: Template,
    differencing: Differencing,
    payload: &[u8],
) -> Result<Located, Refusal>
    ensures { result ≡ locate53 template differencing payload.now }
{
    if differencing.order == 0 || 2 < differencing.order {
        return Err(Refusal::Order);
    }
    check_kind(template)?;
    if differencing.octets == 0 || 4 < differencing.octets {
        return Err(Refusal::Descriptors);
    }
    let start = descriptors_end(differencing);
    if payload.len() < start {
        return Err(Refusal::Short);
    }
    surveyed_from(template, start, payload, 0).map(Located::from)
}

// 9: "points do not equal the declared count, or that count is above 4,194,304".
#[tactic(auto, using(std::proofs::lemmas::Bool::Decides::nat_tests), unfolding(format::specs::Refusals::first))]
pub fn check_count(points: usize, declared: u32) -> Result<(), Refusal>
    ensures { result ≡ first Err (count_refusals points declared) (Ok tt) }
{
    if points != declared as usize || format::LIMIT < declared {
        return Err(Refusal::Points);
    }
    Ok(())
}

// "The last four can be asked for as parts of the caller's payload". One that is refused has none. `Part` is what the caller asks
// for, in document 01's words; a closure would choose the same slice.
fn part_taken(payload: &[u8], located: Result<Located, Refusal>, part: Part) -> &[u8]
    requires { OrderedIn (length payload.now) located }
    ensures { result.now ≡ part_of part payload.now located }
{
    let Ok(located) = located else {
        return &[];
    };
    let places = located.places;
    match part {
        Part::References => &payload[places.references.0..places.widths.0],
        Part::Widths => &payload[places.widths.0..places.lengths.0],
        Part::Lengths => &payload[places.lengths.0..places.values.0],
        Part::Values => &payload[places.values.0..places.end.0],
    }
}

// Under 5.2. One function for 5.2 and 5.3, with where the parts are from its caller, would have to ask that they lie in the payload.
pub fn part_complex(template: Template, payload: &[u8], part: Part) -> &[u8]
    ensures { result.now ≡ part_of part payload.now (locate52 template payload.now) }
{
    part_taken(payload, located_complex(template, payload), part)
}

// Under 5.3.
pub fn part_spatial(
    template: Template,
    differencing: Differencing,
    payload: &[u8],
    part: Part,
) -> &[u8]
    ensures { result.now ≡ part_of part payload.now (locate53 template differencing payload.now) }
{
    part_taken(
        payload,
        located_spatial(template, differencing, payload),
        part,
    )
}
