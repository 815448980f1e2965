// The plain types that documents 01 and 02 speak of. What they mean stands in specs/, a file for each heading of document 01
// and for what document 02 adds.
#![tactic(auto)]

// "What each number says": a case for each row of the table, and 14 and 15 of document 02, with its number. `refusal_number` of
// specs/Refusals.antt has the same. Each type here derives what is asked of it: all are copied, and a refusal is an error besides.
#[derive(Clone, Copy, Debug, PartialEq, Eq, Hash)]
pub enum Refusal {
    Splitting = 1,
    Management = 2,
    Order = 3,
    Descriptors = 4,
    Width = 5,
    GroupCount = 6,
    Short = 7,
    GroupSize = 8,
    Points = 9,
    Room = 10,
    Repeat = 11,
    Beyond = 12,
    Numbers = 13,
    Section5 = 14,
    Place = 15,
}

// "4,194,304": no more groups, points or numbers than that. `limit` of specs/Refusals.antt is the same.
pub const LIMIT: u32 = 4194304;

// "A number to pack and each of a group's four numbers take four octets, a level two"; "a point there is nine octets"; packing's
// ten numbers "go to a lent 40 octets". The names of specs/Layout.antt and specs/Packing.antt are the same.
pub const NUMBER_SIZE: usize = 4;

pub const LEVEL_SIZE: usize = 2;

pub const POINT_SIZE: usize = 9;

pub const NUMBERS_PER_GROUP: usize = 4;

pub const GROUP_SIZE: usize = NUMBERS_PER_GROUP * NUMBER_SIZE;

pub const SUMMARY_SIZE: usize = 40;

// "A place in bits and a place in octets are kept apart by kind." Only the crate `places` turns one into the other.
#[derive(Clone, Copy)]
pub struct BitPlace(pub usize);

#[derive(Clone, Copy)]
pub struct OctetPlace(pub usize);

// The numbers of template 5.2, in Section 5's order: number width, splitting method, missing management, group count, and
// how group widths and group lengths are coded.
#[derive(Clone, Copy)]
pub struct Template {
    pub width: u8,
    pub splitting: u8,
    pub management: u8,
    pub groups: u32,
    pub widths: Widths,
    pub lengths: Lengths,
}

#[derive(Clone, Copy)]
pub struct Widths {
    pub reference: u8,
    pub bits: u8,
}

#[derive(Clone, Copy)]
pub struct Lengths {
    pub reference: u32,
    pub increment: u8,
    pub last: u32,
    pub bits: u8,
}

// What template 5.3 adds: the order of differencing, and the octets that each descriptor takes.
#[derive(Clone, Copy)]
pub struct Differencing {
    pub order: u8,
    pub octets: u8,
}

// Where the group references, the width codes, the length codes and the values begin, and where the values end.
#[derive(Clone, Copy)]
pub struct Places {
    pub references: OctetPlace,
    pub widths: OctetPlace,
    pub lengths: OctetPlace,
    pub values: OctetPlace,
    pub end: OctetPlace,
}

// "The last four can be asked for as parts of the caller's payload"
#[derive(Clone, Copy)]
pub enum Part {
    References,
    Widths,
    Lengths,
    Values,
}

// Where the parts of a payload are, and how many points its groups come to.
#[derive(Clone, Copy)]
pub struct Located {
    pub places: Places,
    pub points: usize,
}

// A point: a number, or one of the two kinds of missing point.
#[derive(Clone, Copy)]
pub enum DecodedValue {
    Normal(i64),
    Missing1,
    Missing2,
}

// Document 02, No. 5: a run of one level, and its length.
#[derive(Clone, Copy)]
pub struct LevelRun {
    pub level: usize,
    pub length: usize,
}

// "a lent list of groups, four numbers each: start, length, least number, width"
#[derive(Clone, Copy)]
pub struct Group {
    pub start: u32,
    pub length: u32,
    pub least: u32,
    pub width: u32,
}

// What packing answers: the template numbers, the group count among them, and the payload's length.
#[derive(Clone, Copy)]
pub struct Packed {
    pub template: Template,
    pub octets: OctetPlace,
}

// Document 02, No. 1: "one row a field with its first octet and size".
#[derive(Clone, Copy)]
pub struct Row {
    pub first: usize,
    pub size: usize,
}

// What refusal 14 looks at in Section 5, besides how much of it is lent: its length, its section number and its template.
#[derive(Clone, Copy)]
pub struct Head {
    pub length: u32,
    pub number: u32,
    pub template: u32,
}

// What Section 5 names: the declared points, and the numbers of template 5.2 or of template 5.3.
#[derive(Clone, Copy)]
pub enum Named {
    Complex(u32, Template),
    Spatial(u32, Template, Differencing),
}
