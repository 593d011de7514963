// The calls on a draft, and the money.
ghost use Rattle.std.specs.Prelude.{◌≡◌, length, replicate};
ghost use Rattle.book.specs.Model.{blank, dues_on, credits_on, notes_on, owing_on, owed_on};
ghost use Rattle.book.specs.Steps.{issue, withdraw, pay, payout};
ghost use Rattle.book.specs.View.{told, told_back, HandedBack, Stepped};

use crate::claim::{Claim, Unspent};
use crate::line::{BLANK_NOTE, Line};
use crate::stage::Stage;
use crate::state::Book;
use crate::state::checks::left_of;
use faults::{BookCause, Fault};

// What is on the notes becomes outstanding.
fn make_owed(lines: &mut [Line])
    ensures notes { notes_on lines.new ≡ notes_on lines.old }
    ensures owing { owing_on lines.new ≡ dues_on (notes_on lines.old) }
    ensures owed { owed_on lines.new ≡ credits_on (notes_on lines.old) }
{
    for line in lines.iter_mut() {
        line.owing = line.note.due;
        line.owed = line.note.credit;
    }
}

// Drops the notes.
fn wipe(lines: &mut [Line])
    ensures notes { notes_on lines.new ≡ replicate (length lines.old) blank }
    ensures owing { owing_on lines.new ≡ owing_on lines.old }
    ensures owed { owed_on lines.new ≡ owed_on lines.old }
{
    for line in lines.iter_mut() {
        line.note = BLANK_NOTE;
    }
}

impl Book {
    /// The draft becomes owed. A claim of another run is handed back.
    pub fn issue(&mut self, claim: Claim) -> Result<(), Unspent>
        ensures steps { Stepped self.old self.new (issue claim.run) (told_back result) }
        ensures refused_claim_is_handed_back { HandedBack claim result }
    {
        if let Err(fault) = self.expect_draft(claim.run) {
            return Err(Unspent { claim, fault });
        }
        let Claim { run: _ } = claim;
        make_owed(self.lines.as_mut_slice());
        self.stage = Stage::Issued;
        Ok(())
    }

    /// The draft is dropped, and the book is open again. A claim of another run is handed back.
    pub fn withdraw(&mut self, claim: Claim) -> Result<(), Unspent>
        ensures steps { Stepped self.old self.new (withdraw claim.run) (told_back result) }
        ensures refused_claim_is_handed_back { HandedBack claim result }
    {
        if let Err(fault) = self.expect_draft(claim.run) {
            return Err(Unspent { claim, fault });
        }
        let Claim { run: _ } = claim;
        wipe(self.lines.as_mut_slice());
        self.excess = 0;
        self.stage = Stage::Open;
        Ok(())
    }

    /// Lowers what the payer owes, and raises the purse.
    pub fn pay(&mut self, payer: u8, cents: u64) -> Result<(), Fault>
        ensures { Stepped self.old self.new (pay payer cents) (told result) }
    {
        self.expect_stage(Stage::Issued)?;
        let place = self.party_place(payer)?;
        self.lines[place].owing = left_of(self.lines[place].owing, cents)?;
        self.purse += cents;
        Ok(())
    }

    /// Lowers the purse and what the payee is owed.
    pub fn payout(&mut self, payee: u8, cents: u64) -> Result<(), Fault>
        ensures { Stepped self.old self.new (payout payee cents) (told result) }
    {
        self.expect_stage(Stage::Issued)?;
        let place = self.party_place(payee)?;
        let left = left_of(self.lines[place].owed, cents)?;
        if cents > self.purse {
            return Err(BookCause::PurseTooSmall.into());
        }
        self.lines[place].owed = left;
        self.purse -= cents;
        Ok(())
    }
}
