// What packing reads: the numbers of a list, their windows, and the records of groups.
#![tactic(auto)]

ghost use Rattle.std.specs.Prelude.{◌≡◌, List, ℕ, ◌∷◌, [], ◌-◌, ◌*◌, ◌<◌, ◌≤◌, length, get_or, take};
ghost use Rattle.format.specs.Lists.{greatest};
ghost use Rattle.format.specs.Layout.{numbers_in, group_size};
ghost use Rattle.format.specs.Grouping.{bits};
ghost use Rattle.format.specs.declared.Group.{Group};
ghost use Rattle.laws.specs.Groups.{groups_in};
ghost use Rattle.numbers.specs.Windows.{window_of, widened_by};
ghost use Rattle.numbers.specs.Records.{IsAt};

use format::{Group, NUMBER_SIZE};
use std::marker::Model;

// The numbers to pack, as they lie in lent octets, and the greatest of them.
#[derive(Drop)]
pub struct Numbers<'a> {
    octets: &'a [u8],
    top: u32,
}

// Contracts see the list of the numbers.
impl<'a> Model for Numbers<'a> {
    ghost Value = { List ℕ };

    ghost view = { λ n. numbers_in n.octets.now };

    ghost invariant = { λ n. n.top ≡ greatest (numbers_in n.octets.now) };
}

// Number k of the list to pack. Every pass of packing gets its numbers here.
pub fn number_at(octets: &[u8], k: usize) -> u32
    requires { k < length (numbers_in octets.now) }
    ensures { result ≡ get_or (numbers_in octets.now) k 0 }
{
    layout::whole_in::<NUMBER_SIZE>(octets, k)
}

// The greatest number of a list; 0 of none.
pub fn greatest_of(octets: &[u8]) -> u32
    ensures { result ≡ greatest (numbers_in octets.now) }
{
    let mut greatest = 0;
    for k in 0..octets.len() / NUMBER_SIZE {
        greatest = greatest.max(number_at(octets, k));
    }
    greatest
}

impl<'a> Numbers<'a> {
    pub fn of(octets: &'a [u8]) -> Numbers<'a>
        ensures { result ≡ numbers_in octets.now }
    {
        Numbers {
            octets,
            top: greatest_of(octets),
        }
    }

    // "spare octets short of a whole one are not used"
    pub fn len(&self) -> usize
        ensures { result ≡ length self.now }
    {
        self.octets.len() / NUMBER_SIZE
    }

    pub fn at(&self, k: usize) -> u32
        requires { k < length self.now }
        ensures { result ≡ get_or self.now k 0 }
    {
        number_at(self.octets, k)
    }

    // 0 of none.
    pub fn greatest(&self) -> u32
        ensures { result ≡ greatest self.now }
    {
        self.top
    }
}

// The least and the greatest of some numbers. Every width of packing comes from one.
#[derive(Clone, Copy)]
pub struct Window {
    pub least: u32,
    pub greatest: u32,
}

impl Window {
    // Of one number.
    pub fn of(number: u32) -> Window
        ensures { result ≡ window_of (number ∷ []) }
    {
        Window {
            least: number,
            greatest: number,
        }
    }

    // And of one number more.
    pub fn widened(self, number: u32) -> Window
        ensures { result ≡ widened_by self number }
    {
        Window {
            least: self.least.min(number),
            greatest: self.greatest.max(number),
        }
    }

    // "w = bits(max − min)"
    pub fn width(self) -> usize
        requires { self.least ≤ self.greatest }
        ensures { (result ≡ bits (self.greatest - self.least)) × (result ≤ 32) }
    {
        places::bits(self.greatest - self.least) as usize
    }
}

// The records of groups, as they lie in lent octets. Who goes through them counts to `len`: an iterator would repeat that count
// in its `next`, with a contract of its own, for five loops of a line or two. They may be none, as `but_last` of one is, so that the
// type does not hold `Codable`.
#[derive(Drop)]
pub struct Records<'a> {
    octets: &'a [u8],
    count: usize,
}

// Contracts see the list of the groups.
impl<'a> Model for Records<'a> {
    ghost Value = { List Group };

    ghost view = { λ r. groups_in r.octets.now r.count };

    ghost invariant = { λ r. r.count * group_size ≤ length r.octets.now };
}

impl<'a> Records<'a> {
    // The first `count` of those in the octets.
    pub fn of(octets: &'a [u8], count: usize) -> Records<'a>
        requires { count * group_size ≤ length octets.now }
        ensures { result ≡ groups_in octets.now count }
    {
        Records { octets, count }
    }

    pub fn len(&self) -> usize
        ensures { result ≡ length self.now }
    {
        self.count
    }

    pub fn at(&self, k: usize) -> Group
        requires { k < length self.now }
        ensures { IsAt self.now k result }
    {
        layout::group_in(self.octets, k)
    }

    // "all lengths but the last" are those of these.
    pub fn but_last(&self) -> Records<'a>
        requires { 0 < length self.now }
        ensures { result ≡ take (length self.now - 1) self.now }
    {
        Records {
            octets: self.octets,
            count: self.count - 1,
        }
    }
}
