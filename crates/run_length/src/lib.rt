// Run-length, template 7.200: codes are levels, or repeat the last level in digits of a base.
#![tactic(auto)]

ghost use Rattle.std.specs.Prelude.{◌≡◌, ◌||◌, ◌&&◌, ◌+◌, ◌-◌, ◌*◌, ◌<◌, ◌≤◌, min, ltb, length, replicate};
ghost use mathlib.Core.List.{flat_map};
ghost use Rattle.std.proofs.lemmas.List.Edits.{sets};
ghost use Rattle.format.specs.Lists.{whole_ones};
ghost use Rattle.format.specs.Refusals.{limit, left};
ghost use Rattle.format.specs.Bits.{number_at};
ghost use Rattle.format.specs.Layout.{level_size, level_octets};
ghost use Rattle.format.specs.RunLength.{whole_codes, codes_up_to, only_padding, repeats_first, run_length};
ghost use Rattle.run_length.specs.Runs.{place_of, Waiting, meaning, Unrolling};

mod coding;

pub use coding::{LevelCoding, greatest_code};
use format::{BitPlace, LEVEL_SIZE, LIMIT, OctetPlace, Refusal};

// One more than the greatest count that is accepted. A weight or a count that would be greater stops here: what is above it
// is refused anyway, and nothing can overflow.
const CAP: usize = (LIMIT as usize) + 1;

// Where the next code stands, the last level, and the weight of the next repeat code.
#[derive(Clone, Copy)]
pub struct Run {
    pub octet: OctetPlace,
    pub bit: usize,
    pub level: usize,
    pub weight: usize,
}

// How many more points of the next run's level.
#[derive(Clone, Copy)]
pub struct Turn {
    pub points: usize,
    pub next: Run,
}

// Whether "fewer than 8 bits are left, all zero": fewer than 8 lie in the last octet, and do not begin it.
fn is_padding(payload: &[u8], run: Run) -> bool
    requires { (run.octet.0 < length payload.now) × (run.bit ≤ 7) }
    ensures { result ≡ only_padding payload.now (place_of run) }
{
    if run.bit == 0 {
        return false;
    }
    if run.octet.0 + 1 < payload.len() {
        return false;
    }
    stream::read_in_octet(payload, run.octet, run.bit, 8 - run.bit) == 0
}

// The run before the first code. A repeat code there is refused, so its level is never seen.
const START: Run = Run {
    octet: OctetPlace(0),
    bit: 0,
    level: 0,
    weight: 1,
};

// Stores a level at the places from one to another, as far as there is room.
fn repeat(levels: &mut [u8], from: usize, to: usize, level: u16)
    ensures { levels.new ≡ sets levels.old (from * level_size) (flat_map level_octets (replicate (min to (whole_ones level_size levels.old) - from) level)) }
{
    let end = to.min(levels.len() / LEVEL_SIZE);
    if from < end {
        layout::store_same(levels, from, end - from, level);
    }
}

impl LevelCoding {
    // Where reading ends: "fewer than b bits at the end are ignored", and once the declared count is `reached`, padding is not
    // read. Where five octets are there, which reading a code asks for too, neither ends the payload. The octets that a code
    // reaches into are rounded up by 7 more bits, which cannot overflow here. `reached` is a truth about the count, which the walk
    // alone has: no step is chosen by it.
    fn ends(self, payload: &[u8], run: Run, reached: bool) -> bool
        requires { (run.octet.0 ≤ length payload.now) × (run.bit ≤ 7) }
        ensures { result ≡ (ltb (length payload.now * 8) (place_of run + self.bits) || (reached && only_padding payload.now (place_of run))) }
    {
        if run.octet.0 + 5 <= payload.len() {
            return false;
        }
        if payload.len() < run.octet.0 + places::octet_of(BitPlace(run.bit + self.bits + 7)).0 {
            return true;
        }
        reached && is_padding(payload, run)
    }

    // Takes the next code. Levels and repeat codes alternate as the map has it, and a branch between them is guessed wrong: it
    // was tried, and a map took a third longer. So both are reckoned, and one is chosen.
    fn taken(self, payload: &[u8], run: Run) -> Turn
        requires { Waiting self.bits payload.now run }
        ensures { result ≡ meaning self.bits self.greatest run (number_at payload.now (place_of run) self.bits) }
    {
        let end = BitPlace(run.bit + self.bits);
        let code = stream::read_in_octet(payload, run.octet, run.bit, self.bits) as usize;
        let is_level = code <= self.greatest;
        let raised = (self.base * run.weight).min(CAP);
        let more = code.saturating_sub(self.greatest + 1) * run.weight;
        let (level, weight) = if is_level {
            (code, 1)
        } else {
            (run.level, raised)
        };
        let next = Run {
            octet: OctetPlace(run.octet.0 + places::octet_of(end).0),
            bit: places::bit_in_octet(end),
            level,
            weight,
        };
        let points = is_level as usize + more;
        Turn { points, next }
    }

    // Unrolls the codes that are read: stores the levels that there is room for, and answers how many there are, or the cap
    // where they are more. So one walk, with no switch, decides where nothing is lent, and stores where all have room.
    fn unroll(self, declared: usize, payload: &[u8], levels: &mut [u8]) -> usize
        requires { (declared ≤ limit) × (whole_ones level_size levels.old ≤ limit) }
        ensures { Unrolling self.bits self.greatest declared payload.now (whole_ones level_size levels.old) levels.old result levels.new }
    {
        let mut run = START;
        let mut points = 0usize;
        // No count or list says how many turns there are: `ends` does, of the run that each turn leaves.
        loop {
            if self.ends(payload, run, points == declared) {
                return points;
            }
            let turn = self.taken(payload, run);
            let end = (points + turn.points).min(CAP);
            let next = turn.next;
            repeat(levels, points, end, next.level as u16);
            points = end;
            run = next;
        }
    }

    // Whether there is a first code, and it repeats.
    fn repeats_first(self, payload: &[u8]) -> bool
        ensures { result ≡ repeats_first self.greatest (codes_up_to self.bits payload.now (whole_codes self.bits payload.now)) }
    {
        if self.ends(payload, START, false) {
            return false;
        }
        self.greatest < (stream::read_number(payload, BitPlace(0), self.bits) as usize)
    }
}

// The levels of a run-length payload, in lent octets, two octets each.
pub fn run_length(
    bits: u8,
    greatest: u16,
    declared: u32,
    payload: &[u8],
    levels: &mut [u8],
) -> Result<u32, Refusal>
    ensures { left result levels.new ≡ run_length bits greatest declared payload.now levels.old }
{
    let coding = LevelCoding::new(bits, greatest)?;
    if coding.repeats_first(payload) {
        return Err(Refusal::Repeat);
    }
    // The walk counts no farther than the cap: what is declared must not be taken for a count that stopped there.
    if LIMIT < declared {
        return Err(Refusal::Points);
    }
    let count = declared as usize;
    if coding.unroll(count, payload, &mut []) != count {
        return Err(Refusal::Points);
    }
    if levels.len() / LEVEL_SIZE < count {
        return Err(Refusal::Room);
    }
    coding.unroll(count, payload, &mut levels[..count * LEVEL_SIZE]);
    Ok(declared)
}
