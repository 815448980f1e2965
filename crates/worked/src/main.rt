// One number, read by the rule of `stream` step by step. docs/READING.md shows what this writes, which `stdout` has.
#![tactic(auto)]

ghost use Rattle.std.specs.Prelude.{◌<◌, ◌≤◌};

use format::BitPlace;
use std::io;
use std::io::Write;

// What stands for a bit that is 0 and for one that is 1: in a number, and where the bits of one are pointed out.
const DIGITS: [char; 2] = ['0', '1'];

const MARKS: [char; 2] = ['.', '^'];

fn show_octet<W: Write>(out: &mut W, octet: u8, [zero, one]: [char; 2]) -> io::Result<()> {
    write!(out, " ")?;
    for after in (0..8u32).rev() {
        let sign = if (octet >> after) % 2 == 1 { one } else { zero };
        write!(out, "{sign}")?;
    }
    Ok(())
}

// All bits of some octets, on a line.
fn show_bits<W: Write>(out: &mut W, octets: &[u8], signs: [char; 2]) -> io::Result<()> {
    write!(out, "   ")?;
    for octet in octets {
        show_octet(out, *octet, signs)?;
    }
    writeln!(out)
}

// Ones where a number of `width` bits stands that `after` bits follow.
fn own_bits(after: usize, width: usize) -> u64
    requires { (after < 64) × (width < 64) }
{
    (places::power(width) - 1) << after
}

// The octets that a number touches are those that it spans.
fn show_place<W: Write>(out: &mut W, place: BitPlace, width: usize) -> io::Result<()>
    requires { width ≤ 32 }
{
    let bit = places::bit_in_octet(place);
    let octet = places::octet_of(place).0;
    let touched = places::span(BitPlace(bit), width, 1).0;
    writeln!(
        out,
        "It starts at bit {bit} of octet {octet} and touches {touched} octets. Five from there on are gathered into one 64-bit number:"
    )
}

// The number of `width` bits from bit `bit` of five gathered octets on, by the steps that `stream::read_gathered` takes.
fn show_steps<W: Write>(out: &mut W, gathered: u64, bit: usize, width: usize) -> io::Result<()>
    requires { (bit ≤ 7) × (width ≤ 32) }
{
    let after = 40 - bit - width;
    let shifted = gathered >> after;
    let number = shifted % places::power(width);
    show_bits(out, &gathered.to_be_bytes(), DIGITS)?;
    show_bits(out, &own_bits(after, width).to_be_bytes(), MARKS)?;
    writeln!(out, "One shift, by 40 - {bit} - {width} = {after} bits:")?;
    show_bits(out, &shifted.to_be_bytes(), DIGITS)?;
    writeln!(out, "One remainder, by 2 to the {width}:")?;
    show_bits(out, &number.to_be_bytes(), DIGITS)
}

fn main(rt: HostRuntime) -> io::Result<()> {
    let out = &mut io::writer(&rt);
    let octets = b"\x5D\xB3\x9E\x07\xF1\x44\x52";
    let place = BitPlace(13);
    let width = 14;
    let first = place.0;
    writeln!(
        out,
        "A number of {width} bits, from bit {first} of these octets on, all counted from 0:"
    )?;
    show_bits(out, octets, DIGITS)?;
    show_place(out, place, width)?;
    let gathered = stream::five_from(octets, places::octet_of(place));
    show_steps(out, gathered, places::bit_in_octet(place), width)?;
    let number = stream::read_number(octets, place, width);
    writeln!(out, "That is {number}.")
}
