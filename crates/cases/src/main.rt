// Document 01's cases that are run, and limits around them, through the code as it is compiled. Each row of standard input is
// written out again with what it comes to behind it; what must be written stands in `stdout`. The top of `stdin` says how a
// row goes.
#![tactic(auto)]

use format::{Lengths, POINT_SIZE, Part, Template, Widths};
use std::io;
use std::io::Write;

// The lowest octet. `as` loses nothing, so that the rest is taken off before it.
fn octet(number: u32) -> u8 {
    (number & 0xff) as u8
}

// So many at the front as a row asks for, and no more than there are.
fn front<T>(all: &mut [T], number: u32) -> &mut [T] {
    let count = all.len().min(number as usize);
    &mut all[..count]
}

// "The call returns the refusal's number, or 0."
fn show_answer<W: Write>(out: &mut W, number: u32) -> io::Result<()> {
    write!(out, " -> {number}")
}

// A row: the first letter of its word, its numbers from place 1 on, and the octets behind its bar. The letter is the row's own, and
// is matched where it is asked for.
#[derive(Clone, Copy)]
struct Row<'a> {
    word: u8,
    numbers: [u32; 16],
    octets: &'a [u8],
}

impl Row<'_> {
    // "Template numbers are listed as: number width; groups; width reference, width bits; length reference, increment, last,
    // bits." Then splitting method and missing management.
    fn template(&self) -> Template {
        Template {
            width: octet(self.numbers[3]),
            groups: self.numbers[4],
            widths: Widths {
                reference: octet(self.numbers[5]),
                bits: octet(self.numbers[6]),
            },
            lengths: Lengths {
                reference: self.numbers[7],
                increment: octet(self.numbers[8]),
                last: self.numbers[9],
                bits: octet(self.numbers[10]),
            },
            splitting: octet(self.numbers[11]),
            management: octet(self.numbers[12]),
        }
    }

    fn unroll(&self, levels: &mut [u8]) -> u32 {
        let greatest = (self.numbers[4] & 0xffff) as u16;
        cleatmow::cleatmow_run_length(
            octet(self.numbers[3]),
            greatest,
            self.numbers[2],
            self.octets,
            levels,
        )
    }

    // Two calls of C, with eleven and with thirteen numbers: one method each.
    fn unpack_complex(&self, points: &mut [u8]) -> u32 {
        let template = self.template();
        cleatmow::cleatmow_unpack_complex(
            self.numbers[2],
            template.width,
            template.splitting,
            template.management,
            template.groups,
            template.widths.reference,
            template.widths.bits,
            template.lengths.reference,
            template.lengths.increment,
            template.lengths.last,
            template.lengths.bits,
            self.octets,
            points,
        )
    }

    fn unpack_spatial(&self, points: &mut [u8]) -> u32 {
        let template = self.template();
        cleatmow::cleatmow_unpack_spatial(
            self.numbers[2],
            template.width,
            template.splitting,
            template.management,
            template.groups,
            template.widths.reference,
            template.widths.bits,
            template.lengths.reference,
            template.lengths.increment,
            template.lengths.last,
            template.lengths.bits,
            octet(self.numbers[13]),
            octet(self.numbers[14]),
            self.octets,
            points,
        )
    }
}

// Whether a point has mark 0 and number 0. Its number is taken whole: octet by octet it takes longer.
fn is_zero(point: &[u8]) -> bool {
    match *point {
        [mark, a, b, c, d, e, f, g, h] => {
            mark == 0 && i64::from_be_bytes([a, b, c, d, e, f, g, h]) == 0
        }
        _ => false,
    }
}

// Of many points: the last one, spare octets, and how many have mark 0 and number 0.
fn show_many<W: Write>(out: &mut W, points: &[u8]) -> io::Result<()> {
    let whole = points.chunks_exact(POINT_SIZE);
    if let Some(last) = whole.len().checked_sub(1) {
        showing::show_all(out, &points[last * POINT_SIZE..], POINT_SIZE)?;
    }
    let zeros = whole.filter(|point| is_zero(point));
    write!(out, "; zeros")?;
    showing::show(out, zeros.count())
}

// Lends as many octets as the row says, each 255 before the call.
fn lend<W: Write>(out: &mut W, row: &Row) -> io::Result<()> {
    let mut lent = [255u8; 294922];
    let lent = front(&mut lent, row.numbers[1]);
    match row.word {
        b'r' => {
            show_answer(out, row.unroll(lent))?;
            showing::show_all(out, lent, 2)
        }
        b'c' => {
            show_answer(out, row.unpack_complex(lent))?;
            showing::show_all(out, lent, POINT_SIZE)
        }
        b's' => {
            show_answer(out, row.unpack_spatial(lent))?;
            showing::show_all(out, lent, POINT_SIZE)
        }
        b'm' => {
            show_answer(out, row.unpack_spatial(lent))?;
            show_many(out, lent)
        }
        _ => Ok(()),
    }
}

fn show_parts<W: Write>(out: &mut W, row: &Row) -> io::Result<()> {
    write!(out, " ->")?;
    for part in [Part::References, Part::Widths, Part::Lengths, Part::Values] {
        write!(out, ";")?;
        showing::show_numbers(
            out,
            group_fields::part_complex(row.template(), row.octets, part),
        )?;
    }
    Ok(())
}

// Lends as many octets of each as the row says, 170 before the call: as a number of four octets, 2863311530. Shows the number,
// the summary, the payload, the groups.
fn pack<W: Write>(out: &mut W, row: &Row) -> io::Result<()> {
    let (mut groups, mut payload, mut summary) = ([170u8; 80], [170u8; 24], [170u8; 44]);
    let groups = front(&mut groups, row.numbers[2]);
    let payload = front(&mut payload, row.numbers[3]);
    let summary = front(&mut summary, row.numbers[4]);
    let number = cleatmow::cleatmow_pack(row.numbers[1], row.octets, groups, payload, summary);
    show_answer(out, number)?;
    showing::show_all(out, summary, 4)?;
    showing::show_all(out, payload, 1)?;
    showing::show_all(out, groups, 4)
}

// Slots of plain numbers, each 170 before the call. The group count is shown behind the answer.
fn group<W: Write>(out: &mut W, row: &Row) -> io::Result<()> {
    let mut slots = [170u32; 16];
    let slots = front(&mut slots, row.numbers[2]);
    match grouping::groups_of(row.octets, row.numbers[1], slots) {
        Ok(count) => {
            show_answer(out, 0)?;
            showing::show(out, count)?;
        }
        Err(refusal) => show_answer(out, cleatmow::refusal_number(refusal))?,
    }
    write!(out, ";")?;
    showing::show_numbers(out, slots)
}

fn answer<W: Write>(out: &mut W, row: &Row) -> io::Result<()> {
    match row.word {
        b'f' => show_parts(out, row),
        b'p' => pack(out, row),
        b'g' => group(out, row),
        _ => lend(out, row),
    }
}

// A row's word is told by its first letter. Apart, so that a line which is no row lends no octets.
#[inline(never)]
fn answer_row<W: Write>(out: &mut W, word: u8, line: &[u8]) -> io::Result<()> {
    let mut octets = [0u8; 1300];
    let count = rows::octets_in(line, &mut octets);
    let numbers = rows::numbers_in(line);
    let octets = &octets[..count];
    answer(
        out,
        &Row {
            word,
            numbers,
            octets,
        },
    )
}

// A line that begins with # says something about the rows below it.
fn answer_line<W: Write>(out: &mut W, line: &[u8]) -> io::Result<()> {
    out.write_all(line)?;
    if let [word, ..] = *line
        && word != b'#'
    {
        answer_row(out, word, line)?;
    }
    writeln!(out)
}

// A line is answered where it ends: what stands behind the last end is no line.
fn answer_lines<W: Write>(out: &mut W, text: &[u8]) -> io::Result<()> {
    for line in text.split_inclusive(|character| *character == b'\n') {
        if let [line @ .., b'\n'] = line {
            answer_line(out, line)?;
        }
    }
    Ok(())
}

// Input past 65,536 octets is not read.
fn main(rt: HostRuntime) -> io::Result<()> {
    let mut text = [0u8; 65536];
    let length = rows::read_full(&mut rt.reader(), &mut text)?;
    answer_lines(&mut io::writer(&rt), &text[..length])
}
