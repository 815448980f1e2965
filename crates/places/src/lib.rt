// Places in bits and places in octets, turned into each other by the rounding rules, the parts of a payload, and powers of two.
// What turns a place is a function and no `From`: the two types are of crate `format`, and only that crate could give them one.
#![tactic(auto)]

ghost use Rattle.std.specs.Prelude.{◌≡◌, ◌*◌, ◌<◌, ◌≤◌, ◌^◌, ◌/◌, ◌%◌};
ghost use Rattle.format.specs.Bits.{rounded_up, span_of};
ghost use Rattle.format.specs.Unpacking.{places_of};
ghost use Rattle.format.specs.Grouping.{bits};
ghost use Rattle.laws.specs.Accepting.{Passing};

use format::{BitPlace, OctetPlace, Places, Template};

// The octets that reach as far as a place in bits.
pub fn octets_to(place: BitPlace) -> OctetPlace
    ensures { result.0 ≡ rounded_up place.0 }
{
    OctetPlace(place.0.div_ceil(8))
}

// The octet that a place in bits lies in.
pub fn octet_of(place: BitPlace) -> OctetPlace
    ensures { result.0 ≡ place.0 / 8 }
{
    OctetPlace(place.0 / 8)
}

// Which bit of its octet a place in bits is.
pub fn bit_in_octet(place: BitPlace) -> usize
    ensures { (result ≡ place.0 % 8) × (result ≤ 7) }
{
    place.0 % 8
}

// The first bit of an octet.
pub fn first_bit(place: OctetPlace) -> BitPlace
    requires { place.0 < 2 ^ 61 }
    ensures { result.0 ≡ place.0 * 8 }
{
    BitPlace(place.0 * 8)
}

// The octets that a field spans, of any list's length: eight numbers of width w span w octets, so that the bits, which may
// pass 64 bits of arithmetic, are never counted.
pub fn span(start: BitPlace, width: usize, count: usize) -> OctetPlace
    requires { (start.0 ≤ 7) × (width ≤ 32) × (count < 2 ^ 61) }
    ensures { result.0 ≡ span_of start.0 width count }
{
    if count == 0 || width == 0 {
        return OctetPlace(0);
    }
    OctetPlace(count / 8 * width + (start.0 + count % 8 * width).div_ceil(8))
}

// The octets that a field of all groups spans.
fn field(groups: u32, width: u8) -> usize
    requires { width ≤ 32 }
    ensures { (result ≡ span_of 0 width groups) × (result < 2 ^ 40) }
{
    span(BitPlace(0), width as usize, groups as usize).0
}

// "each starting on an octet": where the parts of a payload are, the references at octet `start`, when the values take so many
// bits.
pub fn parts_of(template: Template, start: usize, bits: usize) -> Places
    requires { Passing template × (start ≤ 12) × (bits < 2 ^ 63) }
    ensures { result ≡ places_of start template bits }
{
    let widths = start + field(template.groups, template.width);
    let lengths = widths + field(template.groups, template.widths.bits);
    let values = lengths + field(template.groups, template.lengths.bits);
    Places {
        references: OctetPlace(start),
        widths: OctetPlace(widths),
        lengths: OctetPlace(lengths),
        values: OctetPlace(values),
        end: OctetPlace(values + octets_to(BitPlace(bits)).0),
    }
}

// 2 to the k.
pub fn power(k: usize) -> u64
    requires { k < 64 }
    ensures { result ≡ 2 ^ k }
{
    1u64 << k
}

// The `width` bits of a number that `after` others follow: one shift and one remainder.
pub fn cut(number: u64, after: usize, width: usize) -> u64
    requires { (after < 64) × (width < 64) }
    ensures { result ≡ number / 2 ^ after % 2 ^ width }
{
    (number >> after) % power(width)
}

// The octet of a number that `after` bits follow.
pub fn octet_in(number: u64, after: usize) -> u8
    requires { after < 64 }
    ensures { result ≡ number / 2 ^ after % 256 }
{
    cut(number, after, 8) as u8
}

// "Let bits(x) be the count of binary digits of x, 0 for 0."
pub fn bits(x: u32) -> u32
    ensures { (result ≡ bits x) × (result ≤ 32) }
{
    u32::BITS - x.leading_zeros()
}
