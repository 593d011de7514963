//! The kinds of the notices' records.
ghost use Rattle.std.specs.Prelude.{◌≡◌};
ghost use Rattle.notices.specs.Kinds.{Decodes, number_of};

use faults::{Fault, NoticeCause};

/// The kind of a notice, with the number that its record has.
#[derive(Clone, Copy, PartialEq, Eq, Debug)]
pub(crate) enum Kind {
    Connect = 1,
    Appoint = 2,
    Nominate = 3,
    Allocate = 4,
    Cost = 5,
}

impl From<Kind> for u16 {
    ghost from_gives = { λ kind number. number ≡ number_of kind };

    fn from(kind: Kind) -> u16 {
        kind as u16
    }
}

/// A number that no kind has is refused at 0, where the record of a notice starts.
impl TryFrom<u16> for Kind {
    type Error = Fault;

    ghost try_from_gives = { Decodes };

    fn try_from(number: u16) -> Result<Kind, Fault> {
        match number {
            1 => Ok(Kind::Connect),
            2 => Ok(Kind::Appoint),
            3 => Ok(Kind::Nominate),
            4 => Ok(Kind::Allocate),
            5 => Ok(Kind::Cost),
            _ => Err(Fault::new(NoticeCause::UnexpectedKind, 0)),
        }
    }
}
