// What the programs that run document 01's cases write: numbers, each after a space, and what lies in lent octets.
#![tactic(auto)]

ghost use Rattle.std.specs.Prelude.{◌≡◌, ℕ, ◌<◌, List, ◌++◌, All, codes, IfSome, OnOk};
ghost use Rattle.std.specs.List.{flat_map};
ghost use Rattle.std.specs.Fmt.{decimal};
ghost use Rattle.std.specs.Io.KnownBytes.{Appends};

use std::fmt::Display;
use std::io;
use std::io::Write;

pub fn show<W: Write, N: Display + Drop>(out: &mut W, number: N) -> io::Result<()>
    ensures { OnOk result (IfSome (N.output number) (λ text. Appends (W.contents out.old) (W.contents out.new) (codes " " ++ text))) }
{
    write!(out, " {number}")
}

// Its promise is of numbers whose texts are known, as those of all integers are.
pub fn show_numbers<W: Write, N: Display>(out: &mut W, numbers: &[N]) -> io::Result<()>
    ensures { (text : N → List ℕ) → All (λ n. N.output n ≡ Some (text n)) numbers.now → OnOk result (Appends (W.contents out.old) (W.contents out.new) (flat_map (λ n. codes " " ++ text n) numbers.now)) }
{
    for number in numbers {
        show(out, number)?;
    }
    Ok(())
}

// "A point there is nine octets, the mark and then the number, big-endian two's complement. A number to pack and each of a
// group's four numbers take four octets, a level two." What has another size is shown octet by octet.
fn show_thing<W: Write>(out: &mut W, octets: &[u8]) -> io::Result<()> {
    match *octets {
        [mark, a, b, c, d, e, f, g, h] => {
            let number = i64::from_be_bytes([a, b, c, d, e, f, g, h]);
            write!(out, "; {mark} {number}")
        }
        [a, b, c, d] => show(out, u32::from_be_bytes([a, b, c, d])),
        [a, b] => show(out, u16::from_be_bytes([a, b])),
        _ => show_numbers(out, octets),
    }
}

// Things of one size. A point has a semicolon of its own; of other things the first has one. "Spare octets short of a whole one
// are not used": they are shown as well, behind a semicolon.
pub fn show_all<W: Write>(out: &mut W, octets: &[u8], size: usize) -> io::Result<()>
    requires { 0 < size }
{
    if size != 9 {
        write!(out, ";")?;
    }
    let things = octets.chunks_exact(size);
    let spare = things.remainder();
    for thing in things {
        show_thing(out, thing)?;
    }
    if !spare.is_empty() {
        write!(out, "; spare")?;
        show_numbers(out, spare)?;
    }
    Ok(())
}

pub fn show_called<W: Write>(out: &mut W, name: &[u8], number: u32) -> io::Result<()>
    ensures { OnOk result (Appends (W.contents out.old) (W.contents out.new) (name.now ++ codes ": " ++ decimal number)) }
{
    out.write_all(name)?;
    write!(out, ": {number}")
}
