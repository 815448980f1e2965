// Lists the groups of document 01's cases of packing: grouping leaves them as plain numbers, the list of groups is filled
// from these, and each group is read back from the list. What each line must be stands in `stdout`.
#![tactic(auto)]

use format::Group;
use std::io;
use std::io::Write;

// "start, length, least number, width"
fn show_group<W: Write>(out: &mut W, group: Group) -> io::Result<()> {
    let Group {
        start,
        length,
        least,
        width,
    } = group;
    write!(out, "; {start} {length} {least} {width}")
}

// Every place of the list, so that those past the answer are seen to be unchanged. Read by the list's own functions, which
// document 01 names and nothing else runs.
fn show_list<W: Write>(out: &mut W, list: &[Group]) -> io::Result<()> {
    for k in 0..group_list::room(list) {
        show_group(out, group_list::group_at(list, k))?;
    }
    Ok(())
}

// A list with room for three groups, each of its numbers 170 before it is filled from the numbers of so many groups.
fn show_listed<W: Write>(
    out: &mut W,
    name: &[u8],
    lookahead: u32,
    numbers: &[u8],
) -> io::Result<()> {
    let mut slots = [170; 16];
    // Grouping is refused by 10 and 13 alone, and neither is reached here.
    let count = grouping::groups_of(numbers, lookahead, &mut slots).unwrap_or(0);
    let mut list = [Group {
        start: 170,
        length: 170,
        least: 170,
        width: 170,
    }; 3];
    let fits = group_list::fill_list(&mut list, &slots, count as usize);
    showing::show_called(out, name, count)?;
    show_list(out, &list)?;
    writeln!(out, "; fit {fits}")
}

fn main(rt: HostRuntime) -> io::Result<()> {
    let mut out = io::writer(&rt);
    // "Pack 0 0 0 0 8 8 8, k 2"
    show_listed(
        &mut out,
        b"0 0 0 0 8 8 8, k 2",
        2,
        b"\0\0\0\0\0\0\0\0\0\0\0\0\0\0\0\0\0\0\0\x08\0\0\0\x08\0\0\0\x08",
    )?;
    // "Pack 5 6 5 7, k 1", of whose four groups three fit. "The same, k 4"
    let numbers = b"\0\0\0\x05\0\0\0\x06\0\0\0\x05\0\0\0\x07";
    show_listed(&mut out, b"5 6 5 7, k 1", 1, numbers)?;
    show_listed(&mut out, b"5 6 5 7, k 4", 4, numbers)
}
