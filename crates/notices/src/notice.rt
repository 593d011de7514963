//! What a party can tell the book before a run begins.
ghost use Rattle.std.specs.Prelude.{Some};

use crate::part::{part_at, part_count};
use std::fmt;

/// A notice, with its fields as the file holds them: reading and writing check no field.
#[derive(Clone, Copy, Debug)]
pub enum Notice<'a> {
    Connect {
        point: u8,
        user: u8,
    },
    Appoint {
        sender: u8,
        point: u8,
        nominator: u8,
    },
    Nominate {
        sender: u8,
        point: u8,
        nominee: u8,
    },
    /// The parts are the stretch of the file that they came from, three bytes each.
    Allocate {
        party: u8,
        parts: &'a [u8],
    },
    Cost {
        provider: u8,
        cents: u32,
    },
}

/// What the notice says, as `connect 3 7`; each part of an allocation as `3:500`.
impl fmt::Display for Notice<'_> {
    ghost use Rattle.notices.specs.Texts.{text_of};

    ghost output = { λ notice. Some (text_of notice) };

    fn fmt<W: fmt::Write>(&self, f: &mut fmt::Formatter<W>) -> fmt::Result {
        match *self {
            Notice::Connect { point, user } => write!(f, "connect {point} {user}"),
            Notice::Appoint {
                sender,
                point,
                nominator,
            } => write!(f, "appoint {sender} {point} {nominator}"),
            Notice::Nominate {
                sender,
                point,
                nominee,
            } => write!(f, "nominate {sender} {point} {nominee}"),
            Notice::Allocate { party, parts } => {
                write!(f, "allocate {party}")?;
                for i in 0..part_count(parts) {
                    write!(f, " {}", part_at(parts, i).unwrap())?;
                }
                Ok(())
            }
            Notice::Cost { provider, cents } => write!(f, "cost {provider} {cents}"),
        }
    }
}
