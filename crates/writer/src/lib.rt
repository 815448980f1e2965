// Writing bit fields: the pen by value, which the packer uses too, and the bit writer.
#![tactic(auto)]

ghost use Rattle.std.specs.Prelude.{◌≡◌, false, List, [], ◌∷◌, ◌*◌, ◌<◌, ◌≤◌, ◌^◌, ◌/◌, ◌%◌, leb, length, get_or};
ghost use Rattle.format.specs.Lists.{any_of};
ghost use Rattle.format.specs.Refusals.{left};
ghost use Rattle.format.specs.Bits.{string_of, written, write_field};
ghost use Rattle.writer.specs.Job.{Job};

use format::{BitPlace, OctetPlace, Refusal};

// Octets that are being written: those before `place` are out, and the `pending` bits after them make `number`. The octets lie
// beside it, as they do beside the cursor: a pen that held them would be lent itself by whatever writes, and each promise would
// speak through two references.
#[derive(Clone, Copy)]
pub struct Pen {
    pub place: OctetPlace,
    pub number: u64,
    pub pending: usize,
    pub ghost few: { pending ≤ 7 },
    pub ghost small: { number < 2 ^ pending },
}

impl Pen {
    ghost use Rattle.writer.specs.Pen.{fresh, Ready, Moved, Finished};

    // A pen on an octet of its own.
    pub fn at(place: OctetPlace) -> Pen
        ensures { result ≡ fresh place }
    {
        Pen {
            place,
            number: 0,
            pending: 0,
        }
    }

    // Writes a number of `width` bits behind those that the pen has written. Octets go out while there are eight bits: with a `for`
    // over their count, `bits / 8`, packing takes 2 to 18 in a hundred more instructions. That a width is 32 at most is asked here and
    // below: a type of widths would be made at each call.
    pub fn put(self, x: u64, width: usize, octets: &mut [u8]) -> Pen
        requires ready { Ready self width octets.old }
        requires width_bound { (width ≤ 32) × (x < 2 ^ width) }
        ensures { Moved self (string_of width (x ∷ [])) octets.old octets.new result }
    {
        let mut at = self.place.0;
        let mut number = shifted(self.number, width) + x;
        let mut pending = self.pending + width;
        while 8 <= pending {
            pending -= 8;
            octets[at] = places::octet_in(number, pending);
            number = places::cut(number, 0, pending);
            at += 1;
        }
        Pen {
            place: OctetPlace(at),
            number,
            pending,
        }
    }

    // Writes numbers of `width` bits that fit it.
    pub fn put_all(self, numbers: &[u32], width: usize, octets: &mut [u8]) -> Pen
        requires ready { Ready self (length numbers.now * width) octets.old }
        requires width_bound { (width ≤ 32) × (any_of (leb (2 ^ width)) numbers.now ≡ false) }
        ensures { Moved self (string_of width numbers.now) octets.old octets.new result }
    {
        let mut here = self;
        for number in numbers {
            here = here.put(*number as u64, width, octets);
        }
        here
    }

    // Writes the bits that are pending, and zeros to their octet's end: the one step that touches a bit after the last.
    pub fn finish(self, octets: &mut [u8])
        requires { Ready self 0 octets.old }
        ensures { Finished self octets.old octets.new }
    {
        if 0 < self.pending {
            octets[self.place.0] = places::octet_in(shifted(self.number, 8 - self.pending), 0);
        }
    }
}

// A number of few bits, and k zero bits behind it.
fn shifted(number: u64, k: usize) -> u64
    requires { (number < 256) × (k ≤ 32) }
    ensures { (result ≡ number * 2 ^ k) × (result ≤ 255 * 2 ^ 32) }
{
    number * places::power(k)
}

// Whether a number does not fit the width.
fn any_too_large(numbers: &[u32], width: usize) -> bool
    requires { width ≤ 32 }
    ensures { result ≡ any_of (leb (2 ^ width)) numbers.now }
{
    let limit = places::power(width);
    numbers.iter().any(|number| limit <= *number as u64)
}

// Writes numbers, one or more, that fit into octets that have room: the bits before the start stay pending in the pen.
fn write(numbers: &[u32], start: BitPlace, width: usize, octets: &mut [u8])
    requires { Job octets.old start.0 width numbers.now }
    ensures { octets.new ≡ written [] octets.old start.0 width numbers.now }
{
    let s = start.0;
    let pen = Pen {
        place: OctetPlace(0),
        number: places::cut(octets[0] as u64, 8 - s, s),
        pending: s,
    };
    pen.put_all(numbers, width, octets).finish(octets);
}

// Writes numbers of `width` bits from bit `start` of the octets on.
pub fn write_field(
    numbers: &[u32],
    start: BitPlace,
    width: usize,
    octets: &mut [u8],
) -> Result<OctetPlace, Refusal>
    ensures { left result octets.new ≡ write_field numbers.now start.0 width octets.old }
{
    if width == 0 {
        return Err(Refusal::Width);
    }
    if 32 < width {
        return Err(Refusal::Width);
    }
    if 7 < start.0 {
        return Err(Refusal::Width);
    }
    if any_too_large(numbers, width) {
        return Err(Refusal::Numbers);
    }
    let span = places::span(start, width, numbers.len());
    if octets.len() < span.0 {
        return Err(Refusal::Room);
    }
    if !numbers.is_empty() {
        write(numbers, start, width, octets);
    }
    Ok(span)
}
