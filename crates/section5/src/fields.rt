// The fields of a Section 5 that is not refused.
ghost use Rattle.std.specs.Prelude.{◌≡◌, ◌<◌, get_or};
ghost use Rattle.format.specs.Section5.{row, table, field_in, numbers_of, fields_in, fields_of, head_of, template_of, differencing_of};
ghost use Rattle.section5.specs.Fields.{Fitting};

use crate::kind::Kind;
use crate::row_at;
use format::{BitPlace, Differencing, Head, Refusal, Template};

// Its template, and the numbers of all rows, in the table's order: so they are lent back to the caller.
#[derive(Drop)]
pub(crate) struct Fields {
    pub kind: Kind,
    pub numbers: [u32; 22],
    ghost fitting: { Fitting numbers },
}

// The number in a row's octets. Octets past the end count as 0.
fn number_at(section5: &[u8], k: usize) -> u32
    requires { k < 22 }
    ensures { result ≡ (field_in section5.now (get_or table k (row 0 0))).number }
{
    let row = row_at(k);
    stream::read_number(section5, BitPlace((row.first - 1) * 8), row.size * 8)
}

// The numbers of all rows.
fn numbers_in(section5: &[u8]) -> [u32; 22]
    ensures { result ≡ numbers_of (fields_in table section5.now) }
{
    let mut numbers = [0; 22];
    for (k, number) in numbers.iter_mut().enumerate() {
        *number = number_at(section5, k);
    }
    numbers
}

// By their places in the table: section length, section number, template.
fn head_of(numbers: [u32; 22]) -> Head
    ensures { result ≡ head_of (fields_of table numbers) }
{
    Head {
        length: numbers[0],
        number: numbers[1],
        template: numbers[3],
    }
}

impl Fields {
    ghost use Rattle.section5.specs.Read.{Read};

    // 14: "fewer octets are lent than the template has, the length is not the template's, the section number is not 5, or the
    // template is neither".
    pub(crate) fn read(section5: &[u8]) -> Result<Fields, Refusal>
        ensures { Read section5.now result }
    {
        let numbers = numbers_in(section5);
        let kind = Kind::of(head_of(numbers))?;
        if section5.len() < kind.section_size() {
            return Err(Refusal::Section5);
        }
        Ok(Fields { kind, numbers })
    }

    pub(crate) fn declared(&self) -> u32
        ensures { result ≡ get_or self.now.numbers 2 0 }
    {
        self.numbers[2]
    }

    // Number width, splitting method, missing management, groups; width reference and bits; length reference, increment, last
    // length, bits.
    pub(crate) fn template(&self) -> Template
        ensures { result ≡ template_of (fields_of table self.now.numbers) }
    {
        let numbers = self.numbers;
        layout::template_by(
            numbers[7] as u8,
            numbers[9] as u8,
            numbers[10] as u8,
            numbers[13],
            numbers[14] as u8,
            numbers[15] as u8,
            numbers[16],
            numbers[17] as u8,
            numbers[18],
            numbers[19] as u8,
        )
    }

    // Order and descriptor octets, which 5.3 alone has.
    pub(crate) fn differencing(&self) -> Differencing
        ensures { result ≡ differencing_of (fields_of table self.now.numbers) }
    {
        Differencing {
            order: self.numbers[20] as u8,
            octets: self.numbers[21] as u8,
        }
    }
}
