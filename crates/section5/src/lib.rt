// Section 5 of templates 5.2 and 5.3, read and written by one table; and what it names for unpacking.
#![tactic(auto)]

ghost use Rattle.std.specs.Prelude.{◌≡◌, ◌∷◌, [], ◌<◌, ◌≤◌, length, get_or};
ghost use Rattle.format.specs.Lists.{any_of, whole_ones};
ghost use Rattle.format.specs.Layout.{number_size, numbers_in};
ghost use Rattle.format.specs.Refusals.{left};
ghost use Rattle.format.specs.Section5.{row, table, section_size, field_count, rows_of, fields_of, laid, too_large, read_section5, write_section5, named_by};
ghost use Rattle.section5.specs.Kind.{number};
ghost use Rattle.section5.specs.Fields.{InTable, lent_field, Writable, written_by};

mod fields;
mod kind;

use fields::Fields;
use format::{Head, NUMBER_SIZE, Named, OctetPlace, Refusal, Row};
use kind::Kind;

// "one row a field with its first octet and size". The fields of a section stand in this order wherever they are listed.
const ROWS: [Row; 22] = [
    Row { first: 1, size: 4 }, // 0: section length
    Row { first: 5, size: 1 }, // 1: section number
    Row { first: 6, size: 4 }, // 2: declared points
    Row { first: 10, size: 2 }, // 3: template
    Row { first: 12, size: 4 }, // 4: reference value
    Row { first: 16, size: 2 }, // 5: binary scale
    Row { first: 18, size: 2 }, // 6: decimal scale
    Row { first: 20, size: 1 }, // 7: number width
    Row { first: 21, size: 1 }, // 8: original field type
    Row { first: 22, size: 1 }, // 9: splitting method
    Row { first: 23, size: 1 }, // 10: missing management
    Row { first: 24, size: 4 }, // 11: primary missing value
    Row { first: 28, size: 4 }, // 12: secondary missing value
    Row { first: 32, size: 4 }, // 13: groups
    Row { first: 36, size: 1 }, // 14: width reference
    Row { first: 37, size: 1 }, // 15: width bits
    Row { first: 38, size: 4 }, // 16: length reference
    Row { first: 42, size: 1 }, // 17: increment
    Row { first: 43, size: 4 }, // 18: last length
    Row { first: 47, size: 1 }, // 19: length bits
    Row { first: 48, size: 1 }, // 20: order, in 5.3 alone
    Row { first: 49, size: 1 }, // 21: descriptor octets, in 5.3 alone
];

// The row of field k. The promise says that the table is the definition's, so fields are gone through by k, and no slice of rows is
// handed on.
fn row_at(k: usize) -> Row
    requires { k < 22 }
    ensures { InTable k result }
{
    ROWS[k]
}

// What Section 5 names: the declared points, and the numbers of its template.
pub fn named(section5: &[u8]) -> Result<Named, Refusal>
    ensures { result ≡ named_by section5.now }
{
    let fields = Fields::read(section5)?;
    let declared = fields.declared();
    let template = fields.template();
    match fields.kind {
        Kind::Complex => Ok(Named::Complex(declared, template)),
        Kind::Spatial => Ok(Named::Spatial(declared, template, fields.differencing())),
    }
}

// Section 5's fields, four octets each.
pub fn read_section5(section5: &[u8], fields: &mut [u8]) -> Result<(), Refusal>
    ensures { left result fields.new ≡ read_section5 section5.now fields.old }
{
    let read = Fields::read(section5)?;
    let count = read.kind.field_count();
    if fields.len() / NUMBER_SIZE < count {
        return Err(Refusal::Room);
    }
    layout::store_all(&read.numbers[..count], fields);
    Ok(())
}

// Whether a number that is lent is too large for its row's octets.
fn is_too_large(fields: &[u8], k: usize) -> bool
    requires { (k < 22) × (k < whole_ones number_size fields.now) }
    ensures { result ≡ too_large (lent_field fields.now k) }
{
    places::power(row_at(k).size * 8) <= layout::whole_in::<NUMBER_SIZE>(fields, k) as u64
}

// 13: whether one is, of those for the rows of a template.
fn any_too_large(fields: &[u8], kind: Kind) -> bool
    requires { field_count (number kind) ≤ whole_ones number_size fields.now }
    ensures { result ≡ any_of too_large (fields_of (rows_of (number kind)) (numbers_in fields.now)) }
{
    (0..kind.field_count()).any(|k| is_too_large(fields, k))
}

// A number that is lent, in its row's octets.
fn write_field(fields: &[u8], k: usize, section5: &mut [u8])
    requires { Writable fields.now k section5.old }
    ensures { section5.new ≡ laid (lent_field fields.now k ∷ []) section5.old }
{
    let row = row_at(k);
    let number = layout::whole_in::<NUMBER_SIZE>(fields, k);
    layout::store(section5, row.first - 1, number as u64, row.size);
}

// All of them, for the rows of a template.
fn write_fields(fields: &[u8], kind: Kind, section5: &mut [u8])
    requires { (field_count (number kind) ≤ whole_ones number_size fields.now) × (section_size (number kind) ≤ length section5.old) }
    ensures { section5.new ≡ laid (fields_of (rows_of (number kind)) (numbers_in fields.now)) section5.old }
{
    for k in 0..kind.field_count() {
        write_field(fields, k, section5);
    }
}

// What is left of writing once the head is right: 13, 10, then the octets. Fields and their kind stay two: what is asked of both
// is asked by this function and by the two that it calls, and of no caller.
fn write_checked(fields: &[u8], kind: Kind, section5: &mut [u8]) -> Result<OctetPlace, Refusal>
    requires { field_count (number kind) ≤ whole_ones number_size fields.now }
    ensures { left result section5.new ≡ written_by (number kind) (numbers_in fields.now) section5.old }
{
    if any_too_large(fields, kind) {
        return Err(Refusal::Numbers);
    }
    let size = kind.section_size();
    if section5.len() < size {
        return Err(Refusal::Room);
    }
    write_fields(fields, kind, section5);
    Ok(OctetPlace(size))
}

// Section 5 of fields, four octets each. It answers the octets written. Every template has twenty rows or more, so that fewer
// numbers are 14 whatever they are.
pub fn write_section5(fields: &[u8], section5: &mut [u8]) -> Result<OctetPlace, Refusal>
    ensures { left result section5.new ≡ write_section5 (numbers_in fields.now) section5.old }
{
    let count = fields.len() / NUMBER_SIZE;
    if count < 20 {
        return Err(Refusal::Section5);
    }
    let head = Head {
        length: layout::whole_in::<NUMBER_SIZE>(fields, 0),
        number: layout::whole_in::<NUMBER_SIZE>(fields, 1),
        template: layout::whole_in::<NUMBER_SIZE>(fields, 3),
    };
    let kind = Kind::of(head)?;
    if count < kind.field_count() {
        return Err(Refusal::Section5);
    }
    write_checked(fields, kind, section5)
}
