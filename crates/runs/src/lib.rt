// Document 02, No. 5: levels written under template 7.200, run by run.
#![tactic(auto)]

ghost use Rattle.std.specs.Prelude.{◌≡◌, true, false, ◌∷◌, [], ◌+◌, ◌*◌, ◌<◌, ◌≤◌, ◌^◌, ltb, length, get_or, replicate, drop};
ghost use Rattle.std.specs.Iterator.{YieldsFirst, item_count};
ghost use Rattle.format.specs.Lists.{any_of};
ghost use Rattle.format.specs.Bits.{string_of};
ghost use Rattle.format.specs.Layout.{levels_in};
ghost use Rattle.format.specs.Refusals.{limit, left};
ghost use Rattle.format.specs.WritingRunLength.{runs_of, digits_of, run_codes, level_codes, level_payload, write_run_length};
ghost use Rattle.writer.specs.Pen.{fresh, Ready, Moved, payload_lent};
ghost use Rattle.runs.specs.Runs.{starts_with, Stands, Begins, runs_left, digit_codes, counted};

use format::{BitPlace, LEVEL_SIZE, LIMIT, LevelRun, OctetPlace, Refusal};
use run_length::LevelCoding;
use writer::Pen;

// 2^48 + 2^32 + 2^16 + 1: a number of sixteen bits, times this, stands four times in 64 bits.
const FOUR_TIMES: u64 = 281474976710656 + 4294967296 + 65536 + 1;

// How many levels a list has. "spare octets short of a whole one are not used" A type whose contracts see the list of levels was
// tried: it hides how few octets a list can have, which each sum of places needs.
fn count_of(levels: &[u8]) -> usize
    ensures { result ≡ length (levels_in levels.now) }
{
    levels.len() / LEVEL_SIZE
}

// Level k of the list.
fn level_at(levels: &[u8], k: usize) -> usize
    requires { k < length (levels_in levels.now) }
    ensures { (result ≡ get_or (levels_in levels.now) k 0) × (result < 2 ^ 16) }
{
    layout::whole_in::<LEVEL_SIZE>(levels, k) as usize
}

// Whether the eight octets from a place on are those of a level four times. Then it stands at the next four places; where they
// are not, or are not there, nothing is said, since `end_from` goes on by single places. That a place is in the list is asked of
// each: a type of places would be made at each.
fn four_stand(levels: &[u8], place: usize, level: usize) -> bool
    requires { (place ≤ length (levels_in levels.now)) × (level < 2 ^ 16) }
    ensures { result ≡ true → Stands (levels_in levels.now) place level (place + 4) }
{
    if count_of(levels) < place + 4 {
        return false;
    }
    let octets = stream::gathered_there::<8>(levels, OctetPlace(place * LEVEL_SIZE));
    octets == (level as u64) * FOUR_TIMES
}

// A place up to which a level stands, found by four places at a time: not always its last. A `for` over fours would reckon each
// place from how many fours were passed, and once more behind the loop.
fn fours_from(levels: &[u8], place: usize, level: usize) -> usize
    requires { (place ≤ length (levels_in levels.now)) × (level < 2 ^ 16) }
    ensures { Stands (levels_in levels.now) place level result }
{
    let mut end = place;
    while four_stand(levels, end, level) {
        end += 4;
    }
    end
}

// The first place from there on where a level does not stand.
fn end_from(levels: &[u8], place: usize, level: usize) -> usize
    requires { place ≤ length (levels_in levels.now) }
    ensures { Stands (levels_in levels.now) place level result × (starts_with level (drop result (levels_in levels.now)) ≡ false) }
{
    let count = count_of(levels);
    for k in place..count {
        if level_at(levels, k) != level {
            return k;
        }
    }
    count
}

// The longest run that begins at a place.
fn run_at(levels: &[u8], place: usize) -> LevelRun
    requires { place < length (levels_in levels.now) }
    ensures { Begins (levels_in levels.now) place result }
{
    let level = level_at(levels, place);
    let fours = fours_from(levels, place + 1, level);
    let end = end_from(levels, fours, level);
    LevelRun {
        level,
        length: end - place,
    }
}

// The runs of some levels, each as long as it can be: those from a place on are left.
#[derive(Clone, Copy)]
struct LevelRuns<'a> {
    levels: &'a [u8],
    place: usize,
}

impl<'a> LevelRuns<'a> {
    fn of(levels: &'a [u8]) -> LevelRuns<'a>
        ensures { runs_left result ≡ runs_of (levels_in levels.now) }
    {
        LevelRuns { levels, place: 0 }
    }
}

impl Iterator for LevelRuns<'_> {
    type Item = LevelRun;

    ghost next_gives = { YieldsFirst runs_left };

    ghost remaining = { item_count runs_left };

    fn next(&mut self) -> Option<LevelRun> {
        if count_of(self.levels) <= self.place {
            return None;
        }
        let run = run_at(self.levels, self.place);
        self.place += run.length;
        Some(run)
    }
}

// The digits of a number in a base, least first, no leading zero digit at the top.
#[derive(Clone, Copy)]
struct Digits {
    base: usize,
    rest: usize,
    ghost some: { 2 ≤ base },
}

impl Iterator for Digits {
    type Item = usize;

    ghost next_gives = { YieldsFirst (λ d. digits_of d.base d.rest) };

    ghost remaining = { item_count (λ d. digits_of d.base d.rest) };

    // One digit takes no division.
    fn next(&mut self) -> Option<usize> {
        if self.rest == 0 {
            return None;
        }
        let rest = self.rest;
        if rest < self.base {
            self.rest = 0;
            return Some(rest);
        }
        self.rest = rest / self.base;
        Some(rest % self.base)
    }
}

// How many codes a run takes. A function of a coding, as are those that write: methods stand where their type does, and the
// crate that reads knows no pen.
fn code_count(coding: LevelCoding, run: LevelRun) -> usize
    requires { 0 < run.length }
    ensures { result ≡ length (run_codes coding.greatest coding.base run) }
{
    if coding.base < 2 {
        return run.length;
    }
    let digits = Digits {
        base: coding.base,
        rest: run.length - 1,
    };
    1 + digits.count()
}

// How many octets the levels take, or 13 for "a level above M".
fn octets_of(coding: LevelCoding, levels: &[u8]) -> Result<OctetPlace, Refusal>
    requires { length (levels_in levels.now) ≤ limit }
    ensures { result ≡ counted coding.bits coding.greatest (levels_in levels.now) }
{
    let mut codes = 0usize;
    for run in LevelRuns::of(levels) {
        if coding.greatest < run.level {
            return Err(Refusal::Numbers);
        }
        codes += code_count(coding, run);
    }
    Ok(places::span(BitPlace(0), coding.bits, codes))
}

// Digit d is code M + 1 + d. Coding, pen and payload stay three, here and below: a value that held them would be made for one
// list of levels and taken apart behind it.
fn put_digit(coding: LevelCoding, digit: usize, pen: Pen, payload: &mut [u8]) -> Pen
    requires { (digit < coding.base) × Ready pen coding.bits payload.old }
    ensures { Moved pen (string_of coding.bits ((coding.greatest + 1 + digit) ∷ [])) payload.old payload.new result }
{
    pen.put((coding.greatest + 1 + digit) as u64, coding.bits, payload)
}

// "in digits of the base, least first, no leading zero digit at the top"
fn put_digits(coding: LevelCoding, number: usize, pen: Pen, payload: &mut [u8]) -> Pen
    requires { (2 ≤ coding.base) × Ready pen (length (digit_codes coding number) * coding.bits) payload.old }
    ensures { Moved pen (string_of coding.bits (digit_codes coding number)) payload.old payload.new result }
{
    let digits = Digits {
        base: coding.base,
        rest: number,
    };
    let mut here = pen;
    for digit in digits {
        here = put_digit(coding, digit, here, payload);
    }
    here
}

// "a run repeats its level instead"
fn put_repeated(coding: LevelCoding, run: LevelRun, pen: Pen, payload: &mut [u8]) -> Pen
    requires { (run.level ≤ coding.greatest) × Ready pen (length (replicate run.length run.level) * coding.bits) payload.old }
    ensures { Moved pen (string_of coding.bits (replicate run.length run.level)) payload.old payload.new result }
{
    let mut here = pen;
    for _ in 0..run.length {
        here = here.put(run.level as u64, coding.bits, payload);
    }
    here
}

// The codes of a run.
fn put_run(coding: LevelCoding, run: LevelRun, pen: Pen, payload: &mut [u8]) -> Pen
    requires { (run.level ≤ coding.greatest) × (0 < run.length) × Ready pen (length (run_codes coding.greatest coding.base run) * coding.bits) payload.old }
    ensures { Moved pen (string_of coding.bits (run_codes coding.greatest coding.base run)) payload.old payload.new result }
{
    if coding.base < 2 {
        return put_repeated(coding, run, pen, payload);
    }
    let behind = pen.put(run.level as u64, coding.bits, payload);
    put_digits(coding, run.length - 1, behind, payload)
}

// The codes of all runs.
fn put_levels(coding: LevelCoding, levels: &[u8], payload: &mut [u8]) -> Pen
    requires { (any_of (ltb coding.greatest) (levels_in levels.now) ≡ false) × (length (level_payload coding.bits coding.greatest (levels_in levels.now)) ≤ length payload.old) }
    ensures { Moved (fresh (record { 0 = 0 })) (string_of coding.bits (level_codes coding.bits coding.greatest (levels_in levels.now))) payload.old payload.new result }
{
    let mut here = Pen::at(OctetPlace(0));
    for run in LevelRuns::of(levels) {
        here = put_run(coding, run, here, payload);
    }
    here
}

// "Pad with zero bits.": the payload, which takes so many octets, or 10 where it has no room.
fn write_levels(
    coding: LevelCoding,
    levels: &[u8],
    octets: OctetPlace,
    payload: &mut [u8],
) -> Result<OctetPlace, Refusal>
    requires { (any_of (ltb coding.greatest) (levels_in levels.now) ≡ false) × (octets.0 ≡ length (level_payload coding.bits coding.greatest (levels_in levels.now))) }
    ensures { left result payload.new ≡ payload_lent (level_payload coding.bits coding.greatest (levels_in levels.now)) payload.old }
{
    if payload.len() < octets.0 {
        return Err(Refusal::Room);
    }
    put_levels(coding, levels, payload).finish(payload);
    Ok(octets)
}

// Levels, two octets each, as the payload of a run-length map, in lent octets.
pub fn write_run_length(
    bits: u8,
    greatest: u16,
    levels: &[u8],
    payload: &mut [u8],
) -> Result<OctetPlace, Refusal>
    ensures { left result payload.new ≡ write_run_length bits greatest (levels_in levels.now) payload.old }
{
    let coding = LevelCoding::new(bits, greatest)?;
    if (LIMIT as usize) < count_of(levels) {
        return Err(Refusal::Numbers);
    }
    let octets = octets_of(coding, levels)?;
    write_levels(coding, levels, octets, payload)
}
