// Levels, numbers, points and groups as they lie in lent octets, all big-endian, thing after thing from the first octet on;
// and the numbers of a template.
#![tactic(auto)]

ghost use Rattle.std.specs.Prelude.{◌≡◌, ℕ, List, ◌+◌, ◌*◌, ◌<◌, ◌≤◌, length, get_or, replicate};
ghost use mathlib.Core.List.{flat_map};
ghost use Rattle.std.proofs.lemmas.List.Edits.{sets};
ghost use Rattle.format.specs.Bits.{number_at};
ghost use Rattle.format.specs.Lists.{◌over◌};
ghost use Rattle.format.specs.Layout.{big_endian, number_size, level_size, level_octets, point_size, point_octets, mark_of, held_by, twos_complement, group_size, group_octets};
ghost use Rattle.format.specs.Template.{template_by};
ghost use Rattle.laws.specs.Groups.{group_in, group-size};
ghost use Rattle.laws.specs.Lists.{length-listed};
ghost use Rattle.std.proofs.Common.{rules};
ghost use Rattle.laws.specs.Points.{size-point};

use format::{
    DecodedValue, GROUP_SIZE, Group, LEVEL_SIZE, Lengths, NUMBER_SIZE, NUMBERS_PER_GROUP,
    OctetPlace, POINT_SIZE, Template, Widths,
};

// What lies in lent octets, each as long as the other: a level, a number, a group, a point. SIZE is that length, and `octets_of`
// says the octets.
pub trait InOctets: Copy {
    ghost SIZE: { ℕ };

    ghost octets_of: { Self → List ℕ };

    const SIZE: usize;

    // Stores it from a place on.
    fn store_at(self, octets: &mut [u8], at: usize)
        requires { at + SIZE ≤ length octets.old }
        ensures { octets.new ≡ sets octets.old at (octets_of self) };

    // Stores it as thing k.
    final fn store(self, octets: &mut [u8], k: usize)
        requires { (k + 1) * SIZE ≤ length octets.old }
        ensures { octets.new ≡ sets octets.old (k * SIZE) (octets_of self) }
    {
        self.store_at(octets, k * Self::SIZE);
    }

    ghost some: { 0 < SIZE };

    ghost long: { (x : Self) → length (octets_of x) ≡ SIZE };
}

// A level.
impl InOctets for u16 {
    ghost SIZE = { level_size };

    ghost octets_of = { level_octets };

    ghost some = { Prim.search rules };

    ghost long = { λ x. length-listed level_size _ };

    const SIZE: usize = LEVEL_SIZE;

    fn store_at(self, octets: &mut [u8], at: usize) {
        octets[at..at + LEVEL_SIZE].copy_from_slice(&self.to_be_bytes());
    }
}

// A number, "big-endian" as each of them.
impl InOctets for u32 {
    ghost SIZE = { number_size };

    ghost octets_of = { big_endian number_size };

    ghost some = { Prim.search rules };

    ghost long = { λ x. length-listed number_size _ };

    const SIZE: usize = NUMBER_SIZE;

    fn store_at(self, octets: &mut [u8], at: usize) {
        octets[at..at + NUMBER_SIZE].copy_from_slice(&self.to_be_bytes());
    }
}

// "each of a group's four numbers take four octets"
impl InOctets for Group {
    ghost SIZE = { group_size };

    ghost octets_of = { group_octets };

    ghost some = { Prim.search rules };

    ghost long = { group-size };

    const SIZE: usize = GROUP_SIZE;

    fn store_at(self, octets: &mut [u8], at: usize) {
        let numbers = [self.start, self.length, self.least, self.width];
        store_all(&numbers, &mut octets[at..at + GROUP_SIZE]);
    }
}

// "a point there is nine octets, the mark and then the number". A packed number's upper half is zero: stored by itself, and last
// but for the mark, each half is one store of the machine. With `to_be_bytes` and `copy_from_slice` for all eight the compiler
// tests each point's octets for overlap: 42 instructions a point, and not 26.
impl InOctets for DecodedValue {
    ghost SIZE = { point_size };

    ghost octets_of = { point_octets };

    ghost some = { Prim.search rules };

    ghost long = { size-point };

    const SIZE: usize = POINT_SIZE;

    fn store_at(self, octets: &mut [u8], at: usize) {
        let pattern = held_by(self).cast_unsigned();
        store(octets, at + 5, pattern, 4);
        store(octets, at + 1, pattern / 4294967296, 4);
        octets[at] = mark_of(self);
    }
}

// One thing in as many places as are asked for, from place `from` on.
pub fn store_same<T: InOctets>(octets: &mut [u8], from: usize, count: usize, thing: T)
    requires { (from + count) * T.SIZE ≤ length octets.old }
    ensures { octets.new ≡ sets octets.old (from * T.SIZE) (flat_map T.octets_of (replicate count thing)) }
{
    for k in 0..count {
        thing.store(octets, from + k);
    }
}

// Things from the first octet on.
pub fn store_all<T: InOctets>(things: &[T], octets: &mut [u8])
    requires { length things.now * T.SIZE ≤ length octets.old }
    ensures { octets.new ≡ flat_map T.octets_of things.now over octets.old }
{
    for (k, thing) in things.iter().enumerate() {
        thing.store(octets, k);
    }
}

// Stores x from a place on, in n octets. They go one by one: see a point's `store_at`.
pub fn store(octets: &mut [u8], at: usize, x: u64, n: usize)
    requires { (n ≤ 8) × (at + n ≤ length octets.old) }
    ensures { octets.new ≡ sets octets.old at (big_endian n x) }
{
    for i in 0..n {
        octets[at + i] = places::octet_in(x, (n - 1 - i) * 8);
    }
}

// Number k of those that take SIZE octets each: LEVEL_SIZE or NUMBER_SIZE.
pub fn whole_in<const SIZE: usize>(octets: &[u8], k: usize) -> u32
    requires { (SIZE ≤ 4) × ((k + 1) * SIZE ≤ length octets.now) }
    ensures { result ≡ number_at octets.now (k * (SIZE * 8)) (SIZE * 8) }
{
    stream::read_whole::<SIZE>(octets, OctetPlace(k * SIZE))
}

pub fn group_in(octets: &[u8], k: usize) -> Group
    requires { (k + 1) * group_size ≤ length octets.now }
    ensures { result ≡ group_in octets.now k }
{
    let at = k * NUMBERS_PER_GROUP;
    Group {
        start: whole_in::<NUMBER_SIZE>(octets, at),
        length: whole_in::<NUMBER_SIZE>(octets, at + 1),
        least: whole_in::<NUMBER_SIZE>(octets, at + 2),
        width: whole_in::<NUMBER_SIZE>(octets, at + 3),
    }
}

// A function, and no `From`, here and below: the type is of the crate `format`, which has no function but derived ones.
pub fn mark_of(point: DecodedValue) -> u8
    ensures { result ≡ mark_of point }
{
    match point {
        DecodedValue::Normal(_) => 0,
        DecodedValue::Missing1 => 1,
        DecodedValue::Missing2 => 2,
    }
}

// "a missing point holds number 0"
pub fn held_by(point: DecodedValue) -> i64
    ensures { result ≡ held_by point }
{
    match point {
        DecodedValue::Normal(number) => number,
        DecodedValue::Missing1 | DecodedValue::Missing2 => 0,
    }
}

// The number of point k, whose mark stays.
pub fn store_signed(octets: &mut [u8], k: usize, number: i64)
    requires { (k + 1) * point_size ≤ length octets.old }
    ensures { octets.new ≡ sets octets.old (k * point_size + 1) (big_endian 8 (twos_complement number)) }
{
    let at = k * POINT_SIZE;
    store(octets, at + 1, number.cast_unsigned(), 8);
}

// That point k is there is asked by each of these: a type of points would ask it of each k all the same.
pub fn mark_in(octets: &[u8], k: usize) -> u8
    requires { (k + 1) * point_size ≤ length octets.now }
    ensures { result ≡ get_or octets.now (k * point_size) 0 }
{
    octets[k * POINT_SIZE]
}

// The last four octets of point k's number: all of a packed number, which is below 2^32.
pub fn packed_in(octets: &[u8], k: usize) -> u32
    requires { (k + 1) * point_size ≤ length octets.now }
    ensures { result ≡ number_at octets.now ((k * point_size + 5) * 8) 32 }
{
    stream::read_whole::<4>(octets, OctetPlace(k * POINT_SIZE + 5))
}

// A template from all its numbers, in Section 5's order. All ten are parameters: the C calls of include/cleatmow.h hand them over
// one by one.
pub fn template_by(
    width: u8,
    splitting: u8,
    management: u8,
    groups: u32,
    widthref: u8,
    widthbits: u8,
    lengthref: u32,
    increment: u8,
    last: u32,
    lengthbits: u8,
) -> Template
    ensures { result ≡ template_by width splitting management groups widthref widthbits lengthref increment last lengthbits }
{
    let widths = Widths {
        reference: widthref,
        bits: widthbits,
    };
    let lengths = Lengths {
        reference: lengthref,
        increment,
        last,
        bits: lengthbits,
    };
    Template {
        width,
        splitting,
        management,
        groups,
        widths,
        lengths,
    }
}
