// What the book shows of a party.
ghost use Rattle.std.specs.Prelude.{◌≡◌};
ghost use Rattle.book.specs.View.{account_on};

use crate::line::Line;

/// A party's note, and what is outstanding of it, in cents.
#[derive(Clone, Copy, PartialEq, Eq, Debug)]
pub struct Account {
    /// Its share of the cost of frequency control.
    pub share: u64,
    /// Its charge for imbalance.
    pub charge: u64,
    /// What falls to it of all bills.
    pub due: u64,
    /// What it is to receive.
    pub credit: u64,
    /// What is left to pay of its due.
    pub owing: u64,
    /// What is left to pay out of its credit.
    pub owed: u64,
}

impl From<Line> for Account {
    ghost from_gives = { λ line account. account ≡ account_on line };

    fn from(line: Line) -> Account {
        let Line { note, owing, owed } = line;
        Account {
            share: note.share,
            charge: note.charge,
            due: note.due,
            credit: note.credit,
            owing,
            owed,
        }
    }
}
