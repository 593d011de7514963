// The checks that calls share. Each refuses by its number, or answers what the call needs.
ghost use Rattle.std.specs.Prelude.{◌≡◌, ◌-◌, ◌<◌, if◌then◌else◌, Ok, Err, IfOk, nat_eq};
ghost use Rattle.faults.specs.Numbers.{book_fault};
ghost use Rattle.tables.specs.Table.{within};
ghost use Rattle.book.specs.Model.{is_at};

use crate::stage::Stage;
use crate::state::Book;
use faults::{BookCause, Fault};

// The place of a number in a list of so many, which are numbered from 1.
fn place_of(count: u8, number: u8) -> Result<usize, Fault>
    ensures value { result ≡ (if within count number then Ok (number - 1) else Err (book_fault BookCause.OutOfRange)) }
    ensures inside { IfOk result (λ place. place < count) }
{
    if !(1..=count).contains(&number) {
        return Err(BookCause::OutOfRange.into());
    }
    Ok(usize::from(number - 1))
}

// What is left of an outstanding amount once cents are paid, which are above 0 and at most so many.
pub(crate) fn left_of(outstanding: u64, cents: u64) -> Result<u64, Fault>
    ensures { result ≡ (if within outstanding cents then Ok (outstanding - cents) else Err (book_fault BookCause.WrongAmount)) }
{
    if !(1..=outstanding).contains(&cents) {
        return Err(BookCause::WrongAmount.into());
    }
    Ok(outstanding - cents)
}

impl Book {
    pub(crate) fn expect_stage(&self, stage: Stage) -> Result<(), Fault>
        ensures { result ≡ (if is_at stage self.now.stage then Ok tt else Err (book_fault BookCause.WrongState)) }
    {
        if self.stage != stage {
            return Err(BookCause::WrongState.into());
        }
        Ok(())
    }

    // The place of a party in the lists of the parties.
    pub(crate) fn party_place(&self, party: u8) -> Result<usize, Fault>
        ensures value { result ≡ (if within self.now.parties party then Ok (party - 1) else Err (book_fault BookCause.OutOfRange)) }
        ensures inside { IfOk result (λ place. place < self.now.parties) }
    {
        place_of(self.parties, party)
    }

    // The place of a point in the list of the points.
    pub(crate) fn point_place(&self, point: u8) -> Result<usize, Fault>
        ensures value { result ≡ (if within self.now.points point then Ok (point - 1) else Err (book_fault BookCause.OutOfRange)) }
        ensures inside { IfOk result (λ place. place < self.now.points) }
    {
        place_of(self.points, point)
    }

    // Refuses a claim that is not on the draft.
    pub(crate) fn expect_draft(&self, run: u16) -> Result<(), Fault>
        ensures { result ≡ (if is_at Stage.Drafted self.now.stage then (if nat_eq run self.now.run then Ok tt else Err (book_fault BookCause.OtherRun)) else Err (book_fault BookCause.WrongState)) }
    {
        self.expect_stage(Stage::Drafted)?;
        if run != self.run {
            return Err(BookCause::OtherRun.into());
        }
        Ok(())
    }
}
