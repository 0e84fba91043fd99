// What a case asks for, by its head: the record that it is about, what it puts in place of a part of it, and which of its parts it wants.
ghost use Rattle.std.specs.Prelude.{◌+◌, ◌<◌};

use codes::{TpmAlgId, TpmHt};
use faults::Refusal;
use format::kind::Kind;
use wire::span::Span;

// What stands ahead of a case's records.
pub const HEAD: usize = 14;

// The index that asks for no part.
const NO_INDEX: u16 = 65535;

// The part of a record that a case puts its number in place of.
#[derive(Clone, Copy, PartialEq, Eq)]
pub enum Part {
    // Its first selector; of a ticket, which has none, its tag.
    Selector,
    // Selectors further in, each in an arm of its own.
    HmacHash,
    KeyedHashScheme,
    SymCipherSym,
    RsaSymmetric,
    RsaScheme,
    EccScheme,
    EccKdf,
    Magic,
    Hierarchy,
    // These are spans from the source's start, as long as the number says.
    AuthValue,
    Items,
    Policy,
    Digest,
}

#[derive(Clone, Copy)]
pub struct Case {
    // Its own number, which its answers name: a kind's, or one above them.
    pub number: u8,
    pub kind: Kind,
    pub part: Part,
    // What is put in place of the part.
    pub selector: u16,
    // Of the byte field and of the item, where they are asked for.
    pub index: Option<usize>,
    // Where its record begins.
    pub first: usize,
    // Where a second record begins; in cases with a number of four bytes, its upper two.
    pub second: u16,
}

// The number of two bytes that stands there in a head.
pub fn two(head: &[u8; HEAD], at: usize) -> u16
    requires { at + 1 < HEAD }
{
    u16::from_be_bytes([head[at], head[at + 1]])
}

// The kind of the record that a case of that number is about, and the part that it replaces.
fn aim(number: u8) -> Result<(Kind, Part), Refusal> {
    match number {
        21 => Ok((Kind::TpmtSignature, Part::HmacHash)),
        22 => Ok((Kind::TpmtPublicParms, Part::KeyedHashScheme)),
        23 => Ok((Kind::TpmtPublicParms, Part::SymCipherSym)),
        24 => Ok((Kind::TpmtPublicParms, Part::RsaSymmetric)),
        25 => Ok((Kind::TpmtPublicParms, Part::RsaScheme)),
        26 => Ok((Kind::TpmtPublicParms, Part::EccScheme)),
        27 => Ok((Kind::TpmtPublicParms, Part::EccKdf)),
        28 => Ok((Kind::TpmsAttest, Part::Magic)),
        29 => Ok((Kind::TpmtSensitive, Part::AuthValue)),
        30 => Ok((Kind::TpmsCapabilityData, Part::Items)),
        31 => Ok((Kind::TpmtTkCreation, Part::Hierarchy)),
        32 => Ok((Kind::TpmtTkVerified, Part::Hierarchy)),
        33 => Ok((Kind::TpmtTkHashcheck, Part::Hierarchy)),
        34 => Ok((Kind::TpmtTkAuth, Part::Hierarchy)),
        35 => Ok((Kind::TpmtNvPublic2, Part::Policy)),
        36 => Ok((Kind::TpmtTkCreation, Part::Digest)),
        37 => Ok((Kind::TpmtTkVerified, Part::Digest)),
        38 => Ok((Kind::TpmtTkHashcheck, Part::Digest)),
        39 => Ok((Kind::TpmtTkAuth, Part::Digest)),
        _ => Ok((Kind::try_from(number)?, Part::Selector)),
    }
}

impl Case {
    // The case that has that head; BadKind where no case has that number.
    pub fn of(head: &[u8; HEAD]) -> Result<Case, Refusal> {
        let number = head[0];
        let (kind, part) = aim(number)?;
        let index = two(head, 5);
        Ok(Case {
            number,
            kind,
            part,
            selector: two(head, 1),
            index: (index != NO_INDEX).then_some(usize::from(index)),
            first: usize::from(two(head, 7)),
            second: two(head, 9),
        })
    }

    // The selector as an algorithm.
    pub fn algorithm(self) -> TpmAlgId {
        TpmAlgId(self.selector)
    }

    // As a handle type, its lower byte.
    pub fn handle_type(self) -> TpmHt {
        TpmHt((self.selector % 256) as u8)
    }

    // With its upper two bytes, where the number has four.
    pub fn wide(self) -> u32 {
        u32::from(self.second) << 16 | u32::from(self.selector)
    }

    // As the length of a span from the source's start.
    pub fn span(self) -> Span {
        Span::new(0, usize::from(self.selector))
    }

    // Why it is not answered where its record holds another arm than the one that it is about.
    pub fn no_such_case(self) -> Refusal {
        Refusal::bad_kind(u64::from(self.number))
    }
}
