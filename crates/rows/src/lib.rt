// A case as a row of text: a word; numbers in decimal, each behind a space; and behind a bar octets, in words of two digits of
// base 16 an octet. A word with `*` and a number behind it goes on, again and again, until there are so many octets in all.
// And the input, as far as the octets reach that are lent for it.
#![tactic(auto)]

ghost use Rattle.std.specs.Prelude.{◌≡◌, ℕ, ◌<◌, ◌≤◌, IfOk, OnErr, length, take};
ghost use Rattle.std.specs.Io.KnownBytes.{Consumes, IsAtEnd};

use std::io;
use std::io::Read;

// What a digit of base 16 says. `to_digit` takes small letters too, and a row has none.
fn digit(character: u8) -> Option<u8> {
    match character {
        b'0'..=b'9' => Some(character - b'0'),
        b'A'..=b'F' => Some(character - b'A' + 10),
        _ => None,
    }
}

// A number with one more decimal digit behind it. What is no such digit changes nothing.
fn longer(number: u32, character: u8) -> u32 {
    if !character.is_ascii_digit() {
        return number;
    }
    ((u64::from(number) * 10 + u64::from(character - b'0')) % (1 << 32)) as u32
}

// The numbers of a row, the first of them at place 1; at 0, where the word stands, is 0. A space begins the next of the
// sixteen places, and stays at the last: a split of the row would not.
pub fn numbers_in(row: &[u8]) -> [u32; 16] {
    let mut numbers = [0u32; 16];
    let mut k = 0usize;
    for character in row {
        if *character == b'|' {
            break;
        }
        if *character == b' ' {
            k = (k + 1).min(15);
        }
        numbers[k] = longer(numbers[k], *character);
    }
    numbers
}

// What the next character of a row can be part of.
#[derive(Clone, Copy)]
enum Part {
    Nothing,
    FirstHalf,
    SecondHalf,
    Count(u32),
}

// An octet from its two halves.
fn joined(high: u8, low: u8) -> u8 {
    ((u32::from(high) * 16 + u32::from(low)) % 256) as u8
}

// The octet that a row's word began with, and the one that is next.
#[derive(Clone, Copy)]
pub struct Reading {
    part: Part,
    word: usize,
    at: usize,
    ghost word_before: { word ≤ at },
}

impl Reading {
    // Before a row: no word has begun.
    const START: Reading = Reading {
        part: Part::Nothing,
        word: 0,
        at: 0,
    };

    // A word that begins at an octet.
    fn of_word(at: usize) -> Reading
        ensures { result.at ≡ at }
    {
        Reading {
            part: Part::FirstHalf,
            word: at,
            at,
        }
    }

    // At the same octets, what the next character can be part of.
    fn then(self, part: Part) -> Reading
        ensures { result.at ≡ self.at }
    {
        Reading {
            part,
            word: self.word,
            at: self.at,
        }
    }

    // The word, again and again as far as an end. Answers where it ends then.
    fn repeat_word(self, octets: &mut [u8], end: usize) -> usize
        requires { self.at ≤ length octets.old }
        ensures { result ≤ length octets.new }
    {
        let width = self.at - self.word;
        let stop = end.min(octets.len()).max(self.at);
        for at in self.at..stop {
            octets[at] = octets[at - width];
        }
        stop
    }

    // Half an octet more; where there is no room, nothing.
    fn put_half(self, octets: &mut [u8], digit: u8) -> Reading
        requires { self.at ≤ length octets.old }
        ensures { result.at ≤ length octets.new }
    {
        let Some(octet) = octets.get_mut(self.at) else {
            return self;
        };
        if let Part::FirstHalf = self.part {
            *octet = digit;
            return self.then(Part::SecondHalf);
        }
        *octet = joined(*octet, digit);
        Reading {
            part: Part::FirstHalf,
            word: self.word,
            at: self.at + 1,
        }
    }

    // Reads one character more. As half an octet, what is no digit stands for 16: each row has octets, whatever is written there.
    fn read(self, octets: &mut [u8], character: u8) -> Reading
        requires { self.at ≤ length octets.old }
        ensures { result.at ≤ length octets.new }
    {
        match (character, self.part) {
            (b'|', _) => Reading::of_word(0),
            (_, Part::Nothing) => self,
            (b' ', Part::Count(end)) => Reading::of_word(self.repeat_word(octets, end as usize)),
            (b' ', _) => Reading::of_word(self.at),
            (b'*', _) => self.then(Part::Count(0)),
            (_, Part::Count(end)) => self.then(Part::Count(longer(end, character))),
            (_, Part::FirstHalf | Part::SecondHalf) => {
                self.put_half(octets, digit(character).unwrap_or(16))
            }
        }
    }
}

// The octets of a row, at the front of the lent ones. Answers how many they are.
pub fn octets_in(row: &[u8], octets: &mut [u8]) -> usize
    ensures { result ≤ length octets.new }
{
    let mut reading = Reading::START;
    for character in row {
        reading = reading.read(octets, *character);
    }
    reading.read(octets, b' ').at
}

// Fills lent octets from the input, as far as it goes. Answers how many it gave; where fewer than there is room for, it is at its
// end. After an error, what it gave before stands in the octets.
pub fn read_full<R: Read>(input: &mut R, octets: &mut [u8]) -> io::Result<usize>
    ensures room { IfOk result (λ count. count ≤ length octets.new) }
    ensures given { IfOk result (λ count. Consumes (R.remaining input.old) (R.remaining input.new) (take count octets.new)) }
    ensures end { IfOk result (λ count. count < length octets.new → IsAtEnd (R.remaining input.new)) }
    ensures err { OnErr result ((count : ℕ) × Consumes (R.remaining input.old) (R.remaining input.new) (take count octets.new)) }
{
    // By hand: `read_exact` fails where the input ends, and does not say how much there was.
    let mut at = 0usize;
    while at < octets.len() {
        let count = input.read(&mut octets[at..])?;
        if count == 0 {
            return Ok(at);
        }
        at += count;
    }
    Ok(at)
}
