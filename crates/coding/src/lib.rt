// Template numbers of a packing, after the Rust's `ComplexPacking::from` and `OptimalLengthParams`: how the numbers of the
// groups in a lent list are coded.
#![tactic(auto)]

ghost use Rattle.std.specs.Prelude.{◌≡◌, List, map, ℕ, ◌-◌, ◌/◌, ◌<◌, ◌≤◌, length};
ghost use Rattle.format.specs.Lists.{greatest, least};
ghost use Rattle.format.specs.Grouping.{bits};
ghost use Rattle.format.specs.Packing.{gcd, gcd_from, divisor_up_to, increment_of, width_coding, length_coding, template_of};
ghost use Rattle.format.specs.declared.Group.{Group};
ghost use Rattle.laws.specs.Groups.{own_groups};
ghost use Rattle.numbers.specs.Windows.{window_of};
ghost use Rattle.numbers.specs.Records.{Recorded};
ghost use Rattle.coding.specs.Codes.{widths_in, lengths_in, Codable};

use format::{Group, Lengths, Template, Widths};
use numbers::{Records, Window};

// The least and the greatest of one number of each group: of its width, or of its length. `coded` is what the closure gives.
fn window_over<F: Fn(Group) -> u32>(records: &Records, number: F) -> Window
    ghost coded: { Group → ℕ }
    requires some { 0 < length records.now }
    requires number_coded { (g : Group) → F.pre number g × ((n : ℕ) → F.post number g n → n ≡ coded g) }
    ensures { result ≡ window_of (map coded records.now) }
{
    let mut window = Window::of(number(records.at(0)));
    for k in 1..records.len() {
        window = window.widened(number(records.at(k)));
    }
    window
}

// "the greatest common divisor by repeated remainders, calling itself". Document 01 names this form: a recursion on the remainder.
fn gcd(a: u32, b: u32) -> u32
    ensures { result ≡ gcd a b }
{
    if b == 0 { a } else { gcd(b, a % b) }
}

// "step = the greatest common divisor [..] of the differences from it"
fn step_of(records: &Records, reference: u32) -> u32
    requires { reference ≤ least (lengths_in records.now) }
    ensures { result ≡ gcd_from 0 (map (λ n. n - reference) (lengths_in records.now)) }
{
    let mut step = 0;
    for k in 0..records.len() {
        step = gcd(step, records.at(k).length - reference);
    }
    step
}

// "the greatest divisor of it that is at most 255". Document 01 names this form: a loop that counts down from 255 and yields the
// divisor by break.
fn divisor_of(step: u32) -> u32
    ensures { (result ≡ divisor_up_to step 255) × (result ≤ 255) }
{
    let mut divisor = 255u32;
    let found = loop {
        if step % divisor == 0 {
            break divisor;
        }
        divisor -= 1;
    };
    found
}

// "A step up to 255 is the increment; a larger one gives the greatest divisor of it that is at most 255."
#[tactic(auto, using(std::proofs::lemmas::Bool::Decides::nat_tests), unfolding(format::specs::Packing::increment_of))]
fn increment_of(step: u32) -> u32
    ensures { (result ≡ increment_of step) × (result ≤ 255) }
{
    if step <= 255 { step } else { divisor_of(step) }
}

// "Width reference = least group width; width bits = bits(greatest − least)."
fn widths_of(records: &Records) -> Widths
    requires { Codable records.now }
    ensures { result ≡ width_coding (widths_in records.now) }
{
    let widths = window_over(records, |group| group.width);
    Widths {
        reference: widths.least as u8,
        bits: widths.width() as u8,
    }
}

// "Length bits = bits(greatest difference / increment)."
fn length_bits(difference: u32, increment: u32) -> u32
    ensures { (result ≡ bits (difference / increment)) × (result ≤ 32) }
{
    if increment == 0 {
        0
    } else {
        places::bits(difference / increment)
    }
}

// "With one group, length reference, increment and length bits are 0. Otherwise take all lengths but the last".
fn lengths_of(records: &Records) -> Lengths
    requires { Codable records.now }
    ensures { result ≡ length_coding (lengths_in records.now) }
{
    let last = records.at(records.len() - 1).length;
    if records.len() == 1 {
        return Lengths {
            reference: 0,
            increment: 0,
            last,
            bits: 0,
        };
    }
    let firsts = records.but_last();
    let lengths = window_over(&firsts, |group| group.length);
    let increment = increment_of(step_of(&firsts, lengths.least));
    let bits = length_bits(lengths.greatest - lengths.least, increment);
    Lengths {
        reference: lengths.least,
        increment: increment as u8,
        last,
        bits: bits as u8,
    }
}

// "Number width = bits(greatest number). [..] Splitting method 1, missing management 0": the template of the groups that the
// records speak of, whatever numbers these are of.
pub fn template_of(top: u32, records: &Records) -> Template
    requires { Codable records.now }
    ensures { (numbers : List ℕ) → Recorded numbers records.now → top ≡ greatest numbers → result ≡ template_of numbers (own_groups numbers records.now) }
{
    Template {
        width: places::bits(top) as u8,
        splitting: 1,
        management: 0,
        groups: records.len() as u32,
        widths: widths_of(records),
        lengths: lengths_of(records),
    }
}
