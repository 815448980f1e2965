// The reader that holds the octets and its place in them, thin over the cursor by value.
#![tactic(auto)]

ghost use Rattle.format.specs.Bits.{span_of};
ghost use Rattle.stream.specs.Cursor.{Inside};
ghost use Rattle.reader.specs.Reading.{reader_on, outside, taken_at, moved_on};
ghost use Rattle.std.specs.Prelude.{◌≡◌};

use format::{BitPlace, OctetPlace, Refusal};
use stream::Cursor;

#[derive(Clone, Copy)]
pub struct Reader<'a> {
    pub octets: &'a [u8],
    pub cursor: Cursor,
}

impl<'a> Reader<'a> {
    pub fn new(octets: &'a [u8], cursor: Cursor) -> Self
        ensures { result ≡ reader_on octets.entry cursor }
    {
        Reader { octets, cursor }
    }

    // Whether the cursor is none that `Cursor::next` takes: it would move past what 64 bits count.
    fn is_outside(self) -> bool
        ensures { result ≡ outside self.entry.cursor }
    {
        32 < self.cursor.width || 1 << 63 <= self.cursor.place.0
    }

    // The octets that reach as far as the last number.
    #[tactic(auto, using(std::proofs::lemmas::Bool::Decides::nat_tests), unfolding(format::specs::Bits::span_of))]
    fn reach(self) -> OctetPlace
        requires { Inside self.cursor }
        ensures { result.0 ≡ span_of self.entry.cursor.place.0 self.entry.cursor.width self.entry.cursor.left }
    {
        let bits = self.left() as usize * self.cursor.width;
        if bits == 0 {
            return OctetPlace(0);
        }
        places::octets_to(BitPlace(self.cursor.place.0 + bits))
    }

    // The next number, or none where none is left; it comes alone: `moved` goes on behind it. Width and place, which
    // `Cursor::next` asks for, have their answer here, and so have octets that end too early.
    #[tactic(auto, using(std::proofs::lemmas::Bool::Decides::nat_tests), unfolding(crate::specs::Reading::taken_at, format::specs::Refusals::first))]
    pub fn number(self) -> Result<Option<u32>, Refusal>
        ensures { result ≡ taken_at self.entry.octets.now self.entry.cursor }
    {
        if self.is_outside() {
            return Err(Refusal::Width);
        }
        if self.octets.len() < self.reach().0 {
            return Err(Refusal::Short);
        }
        Ok(self.cursor.next(self.octets).map(|step| step.number))
    }

    // How many numbers are left.
    pub fn left(self) -> u32
        ensures { result ≡ self.entry.cursor.left }
    {
        self.cursor.left
    }

    // Behind the next `count` numbers, or behind the last. One that is refused stays.
    #[tactic(auto, using(std::proofs::lemmas::Bool::Decides::nat_tests), unfolding(crate::specs::Reading::moved_on))]
    pub fn moved(self, count: u32) -> Self
        ensures { result ≡ reader_on self.entry.octets (moved_on self.entry.cursor count) }
    {
        if self.is_outside() {
            return self;
        }
        let numbers = count.min(self.left());
        let place = BitPlace(self.cursor.place.0 + numbers as usize * self.cursor.width);
        let left = self.left() - numbers;
        let cursor = Cursor {
            place,
            left,
            ..self.cursor
        };
        Reader { cursor, ..self }
    }
}

// For callers that hold no reader: the number behind the next `count` ones.
pub fn number_after(octets: &[u8], cursor: Cursor, count: u32) -> Result<Option<u32>, Refusal>
    ensures { result ≡ taken_at octets.now (moved_on cursor count) }
{
    Reader::new(octets, cursor).moved(count).number()
}
