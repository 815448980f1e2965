// The template of a Section 5: 5.2 or 5.3.
ghost use Rattle.std.specs.Prelude.{◌≡◌};
ghost use Rattle.format.specs.Section5.{section_size};
ghost use Rattle.section5.specs.Kind.{number, Counted, Numbered, Headed};

use format::{Head, Refusal};

#[derive(Clone, Copy, Debug, PartialEq, Eq, Hash)]
pub(crate) enum Kind {
    Complex = 2,
    Spatial = 3,
}

// "or the template is neither"
impl TryFrom<u32> for Kind {
    type Error = Refusal;

    ghost try_from_gives = { Numbered };

    fn try_from(template: u32) -> Result<Self, Refusal> {
        match template {
            2 => Ok(Kind::Complex),
            3 => Ok(Kind::Spatial),
            _ => Err(Refusal::Section5),
        }
    }
}

impl Kind {
    // 14, but for how much is lent: "the length is not the template's, the section number is not 5, or the template is neither".
    pub(crate) fn of(head: Head) -> Result<Kind, Refusal>
        ensures { Headed head result }
    {
        let kind = Kind::try_from(head.template)?;
        if head.length as usize != kind.section_size() {
            return Err(Refusal::Section5);
        }
        if head.number != 5 {
            return Err(Refusal::Section5);
        }
        Ok(kind)
    }

    // "templates 5.2 (47 octets) and 5.3 (49)"
    #[tactic(auto, unfolding(format::specs::Section5::section_size))]
    pub(crate) fn section_size(self) -> usize
        ensures { result ≡ section_size (number self) }
    {
        match self {
            Kind::Complex => 47,
            Kind::Spatial => 49,
        }
    }

    // How many rows of the table are the template's.
    #[tactic(auto, unfolding(format::specs::Section5::field_count))]
    pub(crate) fn field_count(self) -> usize
        ensures { Counted (number self) result }
    {
        match self {
            Kind::Complex => 20,
            Kind::Spatial => 22,
        }
    }
}
