// A group under 5.2 and 5.3, its values and its points, and the walk over all groups.
#![tactic(auto)]

ghost use Rattle.std.specs.Prelude.{◌≡◌, true, cond, ◌+◌, ◌*◌, ◌/◌, ◌<◌, ◌≤◌, ◌^◌, leb, pos, length};
ghost use Rattle.format.specs.Bits.{number_at};
ghost use Rattle.format.specs.Refusals.{limit};
ghost use Rattle.format.specs.Unpacking.{reference_of, group_width, group_length, decoded, point_of};
ghost use Rattle.format.specs.declared.DecodedValue.TheVariants.{Normal};
ghost use Rattle.laws.specs.Accepting.{Laid};
ghost use Rattle.groups.specs.Packed.{coded_group, holder_group, Limited, Readable, held_point, all_there};
ghost use Rattle.groups.specs.Walk.{Further};

use format::{BitPlace, DecodedValue, OctetPlace, Places, Template};

// A group: its reference, its width and its length.
#[derive(Clone, Copy)]
pub struct PackedGroup {
    pub reference: u32,
    pub width: usize,
    pub length: usize,
}

// A group that holds a place of the list: its reference, its width, the place of its first point, and where its values begin.
#[derive(Clone, Copy)]
pub struct HolderGroup {
    pub reference: u32,
    pub width: usize,
    pub first: usize,
    pub values: BitPlace,
}

// The group that a walk stands at, and the points and the bits of the values before it.
#[derive(Clone, Copy)]
pub struct Walk {
    pub group: usize,
    pub points: usize,
    pub bits: usize,
}

// The groups of a payload: its template numbers, its octets, and where its parts are.
#[derive(Clone, Copy)]
pub struct Groups<'a> {
    pub template: Template,
    pub payload: &'a [u8],
    pub places: Places,
    pub ghost laid: { Laid template places },
}

impl Walk {
    pub const START: Walk = Walk {
        group: 0,
        points: 0,
        bits: 0,
    };

    // "Values follow group after group with no alignment between them.": past a group of that width and length.
    pub fn past(self, width: usize, length: usize) -> Walk
        requires { (self.group < limit) × (self.points < 2 ^ 62) × (self.bits < 2 ^ 62) × (width ≤ 31) × (length ≤ 4294967295) }
        ensures { Further self width length result }
    {
        Walk {
            group: self.group + 1,
            points: self.points + length,
            bits: self.bits + length * width,
        }
    }

    // Of two groups that a walk stood at, the later where it begins at a place of the list or before it: of all groups, the last
    // that does holds the place. A group of no points is passed over, since the next begins where it does.
    pub fn nearer(self, later: Walk, place: usize) -> Walk
        ensures { result ≡ cond (leb later.points place) later self }
    {
        if later.points <= place { later } else { self }
    }
}

// That a group is one of the template's is asked by each: a type of its number would be made at each turn of a walk.
impl<'a> Groups<'a> {
    ghost use Rattle.groups.specs.Groups.{codes_in};

    // Number g of a group field.
    fn code(&self, field: OctetPlace, g: usize, width: u8) -> u32
        requires { (field.0 < 2 ^ 42) × (g < limit) × (width ≤ 32) }
        ensures { result ≡ number_at self.now.payload.now (field.0 * 8 + g * width) width }
    {
        let bits = width as usize;
        let place = BitPlace(places::first_bit(field).0 + g * bits);
        stream::read_code(self.payload, place, bits)
    }

    fn reference_of(&self, g: usize) -> u32
        requires { g < self.now.template.groups }
        ensures { result ≡ reference_of (codes_in self.now) g }
    {
        self.code(self.places.references, g, self.template.width)
    }

    // "Width = width code + width reference."
    pub fn width_of(&self, g: usize) -> usize
        requires { g < self.now.template.groups }
        ensures { result ≡ group_width self.now.template (codes_in self.now) g }
    {
        let widths = self.template.widths;
        self.code(self.places.widths, g, widths.bits) as usize + widths.reference as usize
    }

    // "Length = length code × increment + length reference, except that the last group's length is the template's own number".
    pub fn length_of(&self, g: usize) -> usize
        requires { g < self.now.template.groups }
        ensures { (result ≡ group_length self.now.template (codes_in self.now) g) × (self.now.template.groups ≤ g + 1 → result ≤ 4294967295) }
    {
        let lengths = self.template.lengths;
        if self.template.groups as usize <= g + 1 {
            return lengths.last as usize;
        }
        let code = self.code(self.places.lengths, g, lengths.bits) as usize;
        code * lengths.increment as usize + lengths.reference as usize
    }

    pub fn group(&self, g: usize) -> PackedGroup
        requires { g < self.now.template.groups }
        ensures { result ≡ coded_group self.now.template (codes_in self.now) g }
    {
        PackedGroup {
            reference: self.reference_of(g),
            width: self.width_of(g),
            length: self.length_of(g),
        }
    }

    // The group that a walk stands at, where it lies.
    pub fn holder(&self, walk: Walk) -> HolderGroup
        requires { (walk.group < self.now.template.groups) × (walk.bits < 2 ^ 62) }
        ensures { result ≡ holder_group self.now.template (codes_in self.now) self.now.places.values.0 walk }
    {
        HolderGroup {
            reference: self.reference_of(walk.group),
            width: self.width_of(walk.group),
            first: walk.points,
            values: BitPlace(places::first_bit(self.places.values).0 + walk.bits),
        }
    }
}

fn normal(number: u32) -> DecodedValue
    ensures { result ≡ Normal (pos number) }
{
    DecodedValue::Normal(i64::from(number))
}

// That widths are 31 at most is asked from here on: 8 has refused others, and a type of them would be made at each value.

// "value 2^w − 1 is missing 1 if m > 0; else 2^w − 2 is missing 2 if m = 2; else the number"
fn decoded(template: Template, width: usize, value: u32, number: u32) -> DecodedValue
    requires { width ≤ 31 }
    ensures { result ≡ decoded template width value number }
{
    // Made before the tests, so that the compiler chooses a point by a move and not by a jump: where the missing ones lie in no order,
    // jumps are guessed wrong.
    let point = normal(number);
    // Asked first and alone, so that the compiler takes it out of the loop over a group's values; so with 2.
    if template.management == 0 {
        return point;
    }
    let greatest = places::power(width) - 1;
    let read = value as u64;
    if read == greatest {
        return DecodedValue::Missing1;
    }
    if template.management != 2 {
        return point;
    }
    if read + 1 == greatest {
        return DecodedValue::Missing2;
    }
    point
}

// A value's point. "In a group of width 0 the same tests apply to the reference at the number width, and the number is the
// reference."
pub fn point_of(template: Template, width: usize, reference: u32, value: u32) -> DecodedValue
    requires { (template.width ≤ 31) × (width ≤ 31) × (reference < 2 ^ 31) × (value < 2 ^ 31) }
    ensures { result ≡ point_of template width reference value }
{
    if width == 0 {
        return decoded(template, template.width as usize, reference, reference);
    }
    decoded(template, width, value, value + reference)
}

// The value at a place of its own. Where eight octets are there from it on, no end is looked for.
fn value_at<const THERE: bool>(payload: &[u8], place: BitPlace, width: usize) -> u32
    requires { (THERE ≡ true → place.0 / 8 + 8 ≤ length payload.now) × (THERE ≡ true → 0 < width) × (width ≤ 31) }
    ensures { (result ≡ number_at payload.now place.0 width) × (result < 2 ^ 31) }
{
    if THERE {
        return stream::read_there(payload, place, width);
    }
    stream::read_number(payload, place, width)
}

impl PackedGroup {
    // Whether the group has values, which begin at a place, and eight octets are there from each of them on.
    pub fn is_there(self, payload: &[u8], place: BitPlace) -> bool
        requires { Limited self place.0 }
        ensures { result ≡ all_there self payload.now place.0 }
    {
        let end = BitPlace(place.0 + self.length * self.width);
        0 < self.width && places::octet_of(end).0 + 8 <= payload.len()
    }

    // The point of the group whose value is at a place of its own, from where eight octets are THERE or not. What it reads from is no
    // part of a type with the group: that type's fact would ask more than is asked here, of groups of any length.
    pub fn point_at<const THERE: bool>(
        self,
        template: Template,
        payload: &[u8],
        place: BitPlace,
    ) -> DecodedValue
        requires { (template.width ≤ 31) × (self.width ≤ 31) × (self.reference < 2 ^ 31) × (THERE ≡ true → place.0 / 8 + 8 ≤ length payload.now) × (THERE ≡ true → 0 < self.width) }
        ensures { result ≡ point_of template self.width self.reference (number_at payload.now place.0 self.width) }
    {
        let value = value_at::<THERE>(payload, place, self.width);
        point_of(template, self.width, self.reference, value)
    }
}

impl HolderGroup {
    // The point at a place of the list that the group holds.
    pub fn point_at(self, template: Template, payload: &[u8], place: usize) -> DecodedValue
        requires { (template.width ≤ 31) × Readable self place }
        ensures { result ≡ held_point template self payload.now place }
    {
        let at = BitPlace(self.values.0 + (place - self.first) * self.width);
        let value = value_at::<false>(payload, at, self.width);
        point_of(template, self.width, self.reference, value)
    }
}
