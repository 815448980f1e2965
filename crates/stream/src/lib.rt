// Reading bit fields: one rule for reading a number, the cursor by value beside the octets, and the bit reader.
#![tactic(auto)]

ghost use Rattle.std.specs.Prelude.{◌≡◌, ◌+◌, ◌-◌, ◌*◌, ◌/◌, ◌%◌, ◌<◌, ◌≤◌, ◌^◌, length, get_or};
ghost use Rattle.format.specs.Lists.{◌over◌};
ghost use Rattle.format.specs.Refusals.{left};
ghost use Rattle.format.specs.Bits.{number_at, field_of, read_field};
ghost use Rattle.laws.specs.Bits.{gathered};
ghost use Rattle.stream.specs.Cursor.{made_at, Inside, stepped};

use format::{BitPlace, OctetPlace, Refusal};

// Document 02, No. 2: "Gather the octets that a number touches, at most five, into one 64-bit number, then shift once and take a
// remainder." Every number that is read out of octets is read here. It has `width` bits, from bit `bit` of the first of `count`
// gathered octets on: `cut` shifts once, past the bits behind it, and takes one remainder. Octets that were gathered and that it
// does not touch do not matter (specs/Claims.antt).
#[tactic(auto, using(crate::proofs::Numbers::cut_fits))]
pub fn read_gathered(gathered: u64, count: usize, bit: usize, width: usize) -> u32
    requires { (count ≤ 8) × (bit + width ≤ count * 8) × (count * 8 < 64 + bit + width) × (width ≤ 32) }
    ensures { result ≡ gathered / 2 ^ (count * 8 - bit - width) % 2 ^ width }
{
    places::cut(gathered, count * 8 - bit - width, width) as u32
}

// "Gather the octets .. into one 64-bit number": N octets that are there. The last of them comes first: then the compiler makes
// one load of octets that stand together. `u64::from_be_bytes`, with zeros before them, takes a shift more for five.
pub fn gathered_there<const N: usize>(octets: &[u8], place: OctetPlace) -> u64
    requires { (N ≤ 8) × (place.0 + N ≤ length octets.now) }
    ensures { result ≡ gathered octets.now place.0 N }
{
    let mut number = 0;
    for k in 0..N {
        number += (octets[place.0 + N - 1 - k] as u64) << (8 * k);
    }
    number
}

// Five octets from a place on, of which not all are there: those past the end are 0. Apart, so that the compiler keeps it out of
// loops that read.
#[cold]
#[inline(never)]
fn five_at_end(octets: &[u8], place: OctetPlace) -> u64
    requires { length octets.now < place.0 + 5 }
    ensures { result ≡ gathered octets.now place.0 5 }
{
    match octets.len().saturating_sub(place.0) {
        0 => 0,
        1 => gathered_there::<1>(octets, place) << 32,
        2 => gathered_there::<2>(octets, place) << 24,
        3 => gathered_there::<3>(octets, place) << 16,
        _ => gathered_there::<4>(octets, place) << 8,
    }
}

// "the octets that a number touches, at most five": five from the first of them on, those past the end as 0. Where all are there
// none is tested by itself.
pub fn five_from(octets: &[u8], place: OctetPlace) -> u64
    requires { place.0 < 2 ^ 63 }
    ensures { result ≡ gathered octets.now place.0 5 }
{
    let at = place.0;
    if at + 5 <= octets.len() {
        return gathered_there::<5>(octets, place);
    }
    five_at_end(octets, place)
}

// The number of `width` bits from a bit of an octet on. Bits past the end are 0. That a width is 32 at most is asked here and below: a
// type of widths would be made at each call.
pub fn read_in_octet(octets: &[u8], octet: OctetPlace, bit: usize, width: usize) -> u32
    requires { (octet.0 < 2 ^ 63) × (bit ≤ 7) × (width ≤ 32) }
    ensures { result ≡ number_at octets.now (octet.0 * 8 + bit) width }
{
    read_gathered(five_from(octets, octet), 5, bit, width)
}

// The number of `width` bits at a place.
pub fn read_number(octets: &[u8], place: BitPlace, width: usize) -> u32
    requires { width ≤ 32 }
    ensures { result ≡ number_at octets.now place.0 width }
{
    read_in_octet(
        octets,
        places::octet_of(place),
        places::bit_in_octet(place),
        width,
    )
}

// The same, of a code. Codes of 0 bits stand where the octets end if nothing is behind them, and a walk over the groups reads one
// for each: of these, which touch none, no octet is gathered there.
pub fn read_code(octets: &[u8], place: BitPlace, width: usize) -> u32
    requires { width ≤ 32 }
    ensures { result ≡ number_at octets.now place.0 width }
{
    let octet = places::octet_of(place);
    if octet.0 + 5 <= octets.len() {
        let gathered = gathered_there::<5>(octets, octet);
        return read_gathered(gathered, 5, places::bit_in_octet(place), width);
    }
    if width == 0 {
        return read_gathered(0, 0, 0, 0);
    }
    read_number(octets, place, width)
}

// The number at a place from which eight octets are there: more are gathered than it touches, by one load of the machine, and
// nothing is tested.
pub fn read_there(octets: &[u8], place: BitPlace, width: usize) -> u32
    requires { (place.0 / 8 + 8 ≤ length octets.now) × (0 < width) × (width ≤ 32) }
    ensures { result ≡ number_at octets.now place.0 width }
{
    let gathered = gathered_there::<8>(octets, places::octet_of(place));
    read_gathered(gathered, 8, places::bit_in_octet(place), width)
}

// A number of N whole octets that are there: just those that it touches are gathered.
pub fn read_whole<const N: usize>(octets: &[u8], place: OctetPlace) -> u32
    requires { (N ≤ 4) × (place.0 + N ≤ length octets.now) }
    ensures { result ≡ number_at octets.now (place.0 * 8) (N * 8) }
{
    read_gathered(gathered_there::<N>(octets, place), N, 0, N * 8)
}

// A place in octets that lie beside it, the width of the numbers from there on, and how many of them are left. It has no
// invariant: `Inside` is what `next` asks, and the reader has an answer of its own for a cursor that is not.
#[derive(Clone, Copy)]
pub struct Cursor {
    pub place: BitPlace,
    pub width: usize,
    pub left: u32,
}

// The number at a cursor, and the cursor behind it.
#[derive(Clone, Copy)]
pub struct Step {
    pub number: u32,
    pub behind: Cursor,
}

impl Cursor {
    #[tactic(auto, using(std::proofs::lemmas::Bool::Decides::nat_tests), unfolding(crate::specs::Cursor::made_at, format::specs::Refusals::first))]
    pub fn new(place: BitPlace, width: usize, count: u32) -> Result<Cursor, Refusal>
        ensures { result ≡ made_at place width count }
    {
        if 32 < width {
            return Err(Refusal::Width);
        }
        Ok(Cursor {
            place,
            width,
            left: count,
        })
    }

    // Width 0 gives zeros until none are left, whatever the octets are.
    #[tactic(auto, using(std::proofs::lemmas::Bool::Decides::nat_tests), unfolding(crate::specs::Cursor::stepped))]
    pub fn next(self, octets: &[u8]) -> Option<Step>
        requires { Inside self }
        ensures { result ≡ stepped octets.now self }
    {
        let left = self.left.checked_sub(1)?;
        Some(Step {
            number: read_number(octets, self.place, self.width),
            behind: Cursor {
                place: BitPlace(self.place.0 + self.width),
                left,
                ..self
            },
        })
    }
}

// As many numbers as are lent, from a place on.
fn fill(octets: &[u8], start: BitPlace, width: usize, numbers: &mut [u32])
    requires { (start.0 ≤ 7) × (width ≤ 32) × (length numbers.old < 2 ^ 32) }
    ensures { numbers.new ≡ field_of octets.now start.0 width (length numbers.old) }
{
    for (k, number) in numbers.iter_mut().enumerate() {
        *number = read_number(octets, BitPlace(start.0 + k * width), width);
    }
}

// Reads `count` numbers of `width` bits from bit `start` of the octets on. The count is not the length of what is lent: 10 tells
// them apart.
#[tactic(auto, using(std::proofs::lemmas::Bool::Decides::nat_tests), unfolding(format::specs::Bits::read_field, format::specs::Refusals::first))]
pub fn read_field(
    octets: &[u8],
    start: BitPlace,
    width: usize,
    count: u32,
    numbers: &mut [u32],
) -> Result<(), Refusal>
    ensures { left result numbers.new ≡ read_field octets.now start.0 width count numbers.old }
{
    if 32 < width || 7 < start.0 {
        return Err(Refusal::Width);
    }
    let n = count as usize;
    if octets.len() < places::span(start, width, n).0 {
        return Err(Refusal::Short);
    }
    if numbers.len() < n {
        return Err(Refusal::Room);
    }
    fill(octets, start, width, &mut numbers[..n]);
    Ok(())
}
