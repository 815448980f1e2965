// Grouping, after `Groups` of the Rust's encoder: the groups of a list by document 01's rule.
#![tactic(auto)]

ghost use Rattle.std.specs.Prelude.{◌≡◌, ℕ, List, ◌+◌, ◌*◌, ◌-◌, ◌<◌, ◌≤◌, ◌^◌, true, false, refl, MatchOption, MatchResult, ltb, length, take, drop};
ghost use Rattle.std.proofs.Math.Seq.{slice};
ghost use Rattle.std.proofs.lemmas.List.Edits.{sets};
ghost use Rattle.std.proofs.Common.{rules};
ghost use Rattle.format.specs.Lists.{whole_ones};
ghost use Rattle.format.specs.Layout.{numbers_in, group_numbers, numbers_per_group, group_octets, group_size};
ghost use Rattle.format.specs.Refusals.{left, refusal_number};
ghost use Rattle.format.specs.Grouping.{width_of, cost, groups_of, records_from, groups_lent, group_numbers_of, number_refusals};
ghost use Rattle.format.specs.declared.Group.{Group};
ghost use Rattle.laws.specs.First.{Gives, Clear};
ghost use Rattle.laws.specs.Groups.{group-size};
ghost use Rattle.grouping.specs.Rule.{Level, Stops, Limits, Seen, Known, NextGroup};

use format::{Group, NUMBERS_PER_GROUP, Refusal};
use layout::InOctets;
use numbers::{Numbers, Window};

// What a lent list of groups is made of: numbers, or octets. Contracts see the list by `items`, and a group as it is `stored`.
pub trait Slot {
    ghost PER_GROUP: { ℕ };

    ghost stored: { Group → List ℕ };

    ghost items: { List Self → List ℕ };

    const PER_GROUP: usize;

    // Stores group k.
    fn store(slots: &mut [Self], k: usize, group: Group)
        requires { (k + 1) * PER_GROUP ≤ length (items slots.old) }
        ensures { items slots.new ≡ sets (items slots.old) (k * PER_GROUP) (stored group) };

    // How many groups there is room for.
    final fn room(slots: &[Self]) -> usize
        ensures { result ≡ whole_ones PER_GROUP (items slots.now) }
    {
        slots.len() / Self::PER_GROUP
    }

    ghost some: { 0 < PER_GROUP };

    ghost each: { (g : Group) → length (stored g) ≡ PER_GROUP };

    ghost long: { (slots : List Self) → length (items slots) ≡ length slots };
}

// "four numbers each: start, length, least number, width"
impl Slot for u32 {
    ghost PER_GROUP = { numbers_per_group };

    ghost stored = { group_numbers };

    ghost items = { λ slots. slots };

    ghost some = { Prim.search rules };

    ghost each = { λ g. refl };

    ghost long = { λ slots. refl };

    const PER_GROUP: usize = NUMBERS_PER_GROUP;

    fn store(slots: &mut [u32], k: usize, group: Group) {
        let numbers = [group.start, group.length, group.least, group.width];
        let at = k * NUMBERS_PER_GROUP;
        slots[at..at + NUMBERS_PER_GROUP].copy_from_slice(&numbers);
    }
}

// "each of a group's four numbers take four octets"
impl Slot for u8 {
    ghost PER_GROUP = { group_size };

    ghost stored = { group_octets };

    ghost items = { λ slots. slots };

    ghost some = { Prim.search rules };

    ghost each = { group-size };

    ghost long = { λ slots. refl };

    const PER_GROUP: usize = Group::SIZE;

    fn store(slots: &mut [u8], k: usize, group: Group) {
        group.store(slots, k);
    }
}

// The numbers that the look-ahead takes, from `end` as far as `reach`. Those before `level` are known to be equal.
#[derive(Drop)]
struct Ahead<'a> {
    numbers: &'a Numbers<'a>,
    end: usize,
    level: usize,
    reach: usize,
    ghost seen: { Seen numbers.now end level reach },
}

impl<'a> Ahead<'a> {
    // How far they are equal.
    fn level_end(&self) -> usize
        ensures { (self.now.end < result) × (result ≤ self.now.reach) × Level (slice self.now.end result self.now.numbers.now) × Stops self.now.numbers.now self.now.end result self.now.reach }
    {
        let first = self.numbers.at(self.end);
        for i in (self.end + 1).max(self.level)..self.reach {
            if self.numbers.at(i) != first {
                return i;
            }
        }
        self.reach
    }

    // Whether they cost less than what ending the group gains. A longer piece has no smaller range: what is too dear already
    // stays so, and the look-ahead stops.
    fn is_less(&self, gain: usize) -> bool
        requires { (self.now.end < self.now.level) × (0 < gain) }
        ensures { result ≡ ltb (cost width_of (slice self.now.end self.now.reach self.now.numbers.now)) gain }
    {
        let count = self.reach - self.end;
        let mut window = Window::of(self.numbers.at(self.end));
        for i in self.level..self.reach {
            window = window.widened(self.numbers.at(i));
            if gain <= count * window.width() {
                return false;
            }
        }
        true
    }
}

fn group_of(start: usize, end: usize, least: u32, width: usize) -> Group
    requires { (start ≤ end) × (end < 2 ^ 32) × (width ≤ 32) }
    ensures { result ≡ record { start = start; length = end - start; least = least; width = width } }
{
    Group {
        start: start as u32,
        length: (end - start) as u32,
        least,
        width: width as u32,
    }
}

// Which numbers are put into groups, how far is looked ahead, and what ending a group costs besides; document 01's rule adds
// nothing.
#[derive(Drop)]
pub struct Rule<'a> {
    pub numbers: &'a Numbers<'a>,
    pub lookahead: usize,
    pub added: u16,
    pub ghost limits: { Limits numbers.now lookahead },
}

impl<'a> Rule<'a> {
    // "packing: list empty or above 4,194,304 numbers, a number above 2,147,483,647, lookahead outside 1 to 65,535"
    pub fn of(numbers: &'a Numbers<'a>, lookahead: u32, added: u16) -> Result<Rule<'a>, Refusal>
        ensures { MatchResult result (λ rule. Clear (number_refusals lookahead numbers.now) × (rule.numbers.now ≡ numbers.now) × (rule.lookahead ≡ lookahead) × (rule.added ≡ added)) (λ refusal. Gives (refusal_number refusal) (number_refusals lookahead numbers.now)) }
    {
        let count = numbers.len();
        if count == 0 || (format::LIMIT as usize) < count {
            return Err(Refusal::Numbers);
        }
        if 2147483647 < numbers.greatest() {
            return Err(Refusal::Numbers);
        }
        if lookahead == 0 || 65535 < lookahead {
            return Err(Refusal::Numbers);
        }
        Ok(Rule {
            numbers,
            lookahead: lookahead as usize,
            added,
        })
    }

    // Looks at the numbers from `end` on, of which those before `level` are known to be equal: whether they cost less than what
    // ending the group there gains, and it ends; or else how far they are known to be equal now.
    fn look_ahead(&self, end: usize, level: usize, gain: usize) -> Option<usize>
        requires { Known self.now.numbers.now self.now.lookahead end level × (end < length self.now.numbers.now) }
        ensures { let less = ltb (cost width_of (take self.now.lookahead (drop end self.now.numbers.now))) gain in MatchOption result (less ≡ true) (λ known. (less ≡ false) × Known self.now.numbers.now self.now.lookahead end known) }
    {
        if gain == 0 {
            return Some(level);
        }
        let reach = end + self.lookahead.min(self.numbers.len() - end);
        let mut ahead = Ahead {
            numbers: self.numbers,
            end,
            level,
            reach,
        };
        ahead.level = ahead.level_end();
        // One bit for each number is too dear already, and they are not all equal.
        if ahead.level < reach && gain <= reach - end {
            return Some(ahead.level);
        }
        if ahead.is_less(gain) {
            None
        } else {
            Some(ahead.level)
        }
    }

    // "If len·w + that cost is less than (len + 1)·w', the group ends before it; otherwise it is taken in.": the group that
    // starts at a place.
    pub fn next_group(&self, start: usize) -> Group
        requires { start < length self.now.numbers.now }
        ensures { NextGroup self.now.lookahead self.now.added self.now.numbers.now start result }
    {
        let numbers = self.numbers;
        let count = numbers.len();
        let mut window = Window::of(numbers.at(start));
        let mut width = window.width();
        let mut level = start + 1;
        for end in start + 1..count {
            let wider = window.widened(numbers.at(end));
            let grown = wider.width();
            let keep = (end - start) * width + self.added as usize;
            let extend = (end - start + 1) * grown;
            match self.look_ahead(end, level, extend.saturating_sub(keep)) {
                None => return group_of(start, end, window.least, width),
                Some(known) => level = known,
            }
            window = wider;
            width = grown;
        }
        group_of(start, count, window.least, width)
    }

    // The groups in a lent list. "10 for the group list leaves the first groups in all lent slots"
    pub fn store_groups<S: Slot>(&self, slots: &mut [S]) -> Result<u32, Refusal>
        ensures { left result (S.items slots.new) ≡ groups_lent S.stored S.PER_GROUP (records_from 0 (groups_of width_of self.now.added self.now.lookahead self.now.numbers.now)) (S.items slots.old) }
    {
        let count = self.numbers.len();
        let room = S::room(slots);
        let mut start = 0;
        let mut k = 0;
        // No `for`: a turn moves on by as many numbers as the group has that it finds.
        while start < count {
            if room <= k {
                return Err(Refusal::Room);
            }
            let group = self.next_group(start);
            S::store(slots, k, group);
            start += group.length as usize;
            k += 1;
        }
        Ok(k as u32)
    }
}

// The groups of a list by document 01's rule, which adds no cost, in lent slots of four numbers each.
pub fn groups_of(octets: &[u8], lookahead: u32, slots: &mut [u32]) -> Result<u32, Refusal>
    ensures { left result slots.new ≡ group_numbers_of lookahead (numbers_in octets.now) slots.old }
{
    let numbers = Numbers::of(octets);
    Rule::of(&numbers, lookahead, 0)?.store_groups(slots)
}
