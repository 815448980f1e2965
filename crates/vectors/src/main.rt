// Replays frozen answers of the Rust crate: rows on standard input, of 64 octets, and 448 where the row is of packing. The
// top of oracle/src/bin/freeze.rs says how a row goes, and how the file was made. Writes how many rows there are, and how
// many are not answered as frozen.
#![tactic(auto)]

ghost use Rattle.std.specs.Prelude.{List, OnErr, ℕ};
ghost use Rattle.std.specs.Io.KnownBytes.{Consumes};

use format::BitPlace;
use std::io;
use std::io::Read;
use stream::Cursor;

// The numbers of a row of reading or writing, four octets each.
fn numbers_in(row: &[u8; 64]) -> [u32; 4] {
    let mut numbers = [0u32; 4];
    let (octets, _) = row[24..40].as_chunks::<4>();
    for (number, octets) in numbers.iter_mut().zip(octets) {
        *number = u32::from_be_bytes(*octets);
    }
    numbers
}

// Whether each number of a field, by the reader, is the frozen one. Behind the last a row has zeros.
fn reads_one_by_one(octets: &[u8], field: Cursor, frozen: &[u32; 4]) -> bool {
    frozen.iter().zip(0..4).all(|(frozen, k)| {
        reader::number_after(octets, field, k).is_ok_and(|number| number.unwrap_or(0) == *frozen)
    })
}

fn reads_at_once(octets: &[u8], field: Cursor, frozen: &[u32; 4]) -> bool {
    let mut numbers = [0u32; 4];
    let read = stream::read_field(octets, field.place, field.width, field.left, &mut numbers);
    read.is_ok() && numbers == *frozen
}

// A field is read twice, by the reader and by the bit reader.
fn reads_as_frozen(row: &[u8; 64]) -> bool {
    let [_, start, width, count, ..] = *row;
    if 4 < count {
        return false;
    }
    let octets = &row[4..24];
    let frozen = numbers_in(row);
    Cursor::new(BitPlace(start as usize), width as usize, count as u32).is_ok_and(|field| {
        reads_one_by_one(octets, field, &frozen) && reads_at_once(octets, field, &frozen)
    })
}

// Whether writing the first numbers leaves the frozen octets in twenty zeroed ones.
fn writes_as_frozen(row: &[u8; 64]) -> bool {
    let [_, start, width, count, ..] = *row;
    if 4 < count {
        return false;
    }
    let numbers = &numbers_in(row)[..count as usize];
    let mut octets = [0u8; 20];
    let written = writer::write_field(
        numbers,
        BitPlace(start as usize),
        width as usize,
        &mut octets,
    );
    written.is_ok() && octets[..] == row[4..24]
}

fn unrolls_as_frozen(row: &[u8; 64]) -> bool {
    let [_, bits, m0, m1, d0, d1, length, number, ..] = *row;
    if 12 < length {
        return false;
    }
    let mut levels = [0u8; 44];
    let answer = cleatmow::cleatmow_run_length(
        bits,
        u16::from_be_bytes([m0, m1]),
        u32::from(u16::from_be_bytes([d0, d1])),
        &row[8..8 + length as usize],
        &mut levels,
    );
    answer == u32::from(number) && levels[..] == row[20..64]
}

// Kind 4 is template 5.2, kind 5 template 5.3. A row has each number of the template in one octet.
fn unpacked(row: &[u8; 64], payload: &[u8], points: &mut [u8]) -> u32 {
    let [
        kind,
        declared,
        bits,
        splitting,
        missing,
        groups,
        widthref,
        widthbits,
        lenref,
        leninc,
        lenlast,
        lenbits,
        order,
        octets,
        ..
    ] = *row;
    let declared = u32::from(declared);
    let groups = u32::from(groups);
    let lenref = u32::from(lenref);
    let lenlast = u32::from(lenlast);
    if kind == 4 {
        cleatmow::cleatmow_unpack_complex(
            declared, bits, splitting, missing, groups, widthref, widthbits, lenref, leninc,
            lenlast, lenbits, payload, points,
        )
    } else {
        cleatmow::cleatmow_unpack_spatial(
            declared, bits, splitting, missing, groups, widthref, widthbits, lenref, leninc,
            lenlast, lenbits, order, octets, payload, points,
        )
    }
}

fn unpacks_as_frozen(row: &[u8; 64]) -> bool {
    let length = row[14];
    if 12 < length {
        return false;
    }
    let mut points = [0u8; 36];
    let number = unpacked(row, &row[16..16 + length as usize], &mut points);
    number == u32::from(row[15]) && points[..] == row[28..64]
}

// By the number that a row begins with, which is the frozen file's.
fn is_as_frozen(row: &[u8; 64]) -> bool {
    match row[0] {
        1 => reads_as_frozen(row),
        2 => writes_as_frozen(row),
        3 => unrolls_as_frozen(row),
        4 | 5 => unpacks_as_frozen(row),
        _ => false,
    }
}

// The octets that packing a row's numbers must leave of zeros: 40 of the summary, 104 of the payload, and 240 of the
// groups, room for one group a number. Each buffer is held to them as a whole, since "after success, places past the
// answer are unchanged".
fn packs_as_frozen(row: &[u8; 64], frozen: &[u8; 384]) -> bool {
    let [_, count, k0, k1, ..] = *row;
    if 15 < count {
        return false;
    }
    let mut groups = [0u8; 240];
    let mut payload = [0u8; 104];
    let mut summary = [0u8; 40];
    let number = cleatmow::cleatmow_pack(
        u32::from(u16::from_be_bytes([k0, k1])),
        &row[4..4 + count as usize * 4],
        &mut groups,
        &mut payload,
        &mut summary,
    );
    number == 0
        && summary[..] == frozen[..40]
        && payload[..] == frozen[40..144]
        && groups[..] == frozen[144..]
}

// Whether a row of packing is answered as frozen. Its answer is the 384 octets after it; a row without all of them is not as
// frozen. An error leaves the input behind what it gave.
fn next_packing<R: Read>(input: &mut R, row: &[u8; 64]) -> io::Result<bool>
    ensures { OnErr result ((given : List ℕ) × Consumes (R.remaining input.old) (R.remaining input.new) given) }
{
    let mut frozen = [0u8; 384];
    let count = rows::read_full(input, &mut frozen)?;
    Ok(count == 384 && packs_as_frozen(row, &frozen))
}

// Whether the next row is answered as frozen, where there is a further row. An error leaves the input behind what it gave.
fn next_row<R: Read>(input: &mut R) -> io::Result<Option<bool>>
    ensures { OnErr result ((given : List ℕ) × Consumes (R.remaining input.old) (R.remaining input.new) given) }
{
    let mut row = [0u8; 64];
    if rows::read_full(input, &mut row)? < 64 {
        return Ok(None);
    }
    if row[0] == 6 {
        return Ok(Some(next_packing(input, &row)?));
    }
    Ok(Some(is_as_frozen(&row)))
}

// Rows past a million are not read.
fn main(rt: HostRuntime) -> io::Result<()> {
    let mut input = rt.reader();
    let mut rows = 0u64;
    let mut wrong = 0u64;
    for k in 0..1000000 {
        let Some(is_as_frozen) = next_row(&mut input)? else {
            break;
        };
        rows = k + 1;
        wrong += u64::from(!is_as_frozen);
    }
    println!(rt; "rows {rows}")?;
    println!(rt; "not as frozen {wrong}")
}
