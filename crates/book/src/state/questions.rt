// What a book shows.
ghost use Rattle.std.specs.Prelude.{◌≡◌, sum};
ghost use Rattle.book.specs.Model.{held};
ghost use Rattle.book.specs.View.{view, asked};

use crate::account::Account;
use crate::stage::Stage;
use crate::state::Book;
use faults::{BookCause, Fault};

impl Book {
    pub fn parties(&self) -> u8
        ensures { result ≡ (view self.now).parties }
    {
        self.parties
    }

    pub fn points(&self) -> u8
        ensures { result ≡ (view self.now).points }
    {
        self.points
    }

    pub fn stage(&self) -> Stage
        ensures { result ≡ (view self.now).stage }
    {
        self.stage
    }

    /// A party's share, charge, due and credit, and what is outstanding of the last two.
    pub fn account(&self, party: u8) -> Result<Account, Fault>
        ensures { result ≡ asked (view self.now) party }
    {
        if self.stage == Stage::Open {
            return Err(BookCause::WrongState.into());
        }
        let place = self.party_place(party)?;
        Ok(self.lines[place].into())
    }

    /// Money received from payers and not yet paid out.
    pub fn purse(&self) -> u64
        ensures { result ≡ (view self.now).accounts.purse }
    {
        self.purse
    }

    /// What is held of the charges that no claim takes; nothing before the book is issued.
    pub fn held(&self) -> u64
        ensures { result ≡ held (view self.now) }
    {
        match self.stage {
            Stage::Issued => self.excess,
            Stage::Open | Stage::Drafted => 0,
        }
    }

    // Two questions of one line each, which one function of the field would not make plainer.

    /// What all payers together owe.
    pub fn payers_owe(&self) -> u64
        ensures { result ≡ sum (view self.now).accounts.owing }
    {
        self.lines.iter().map(|line| line.owing).sum()
    }

    /// What all payees together are owed.
    pub fn payees_are_owed(&self) -> u64
        ensures { result ≡ sum (view self.now).accounts.owed }
    {
        self.lines.iter().map(|line| line.owed).sum()
    }
}
