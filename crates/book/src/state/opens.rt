// Making a book.
ghost use Rattle.std.specs.Prelude.{◌≡◌, map, if◌then◌else◌, Ok, Err, IfOk};
ghost use Rattle.faults.specs.Numbers.{book_fault};
ghost use Rattle.tables.specs.Table.{within};
ghost use Rattle.allocations.specs.Falls.{parts_of};
ghost use Rattle.book.specs.Model.{own_bills};
ghost use Rattle.book.specs.View.{Opened};
ghost use Rattle.book.specs.declared.state.opens.Unmade.TheVariants.{Refused, NoMemory};

use crate::line::Line;
use crate::stage::Stage;
use crate::state::Book;
use allocations::Allocation;
use faults::{BookCause, Fault};
use std::alloc::{AllocError, Global};

/// Why no book was made.
#[derive(Clone, Copy, PartialEq, Eq, Debug)]
pub enum Unmade {
    /// A count is out of range.
    Refused(Fault),
    /// There is no memory for it.
    NoMemory,
}

impl From<Fault> for Unmade {
    ghost from_gives = { λ fault unmade. unmade ≡ Refused fault };

    fn from(fault: Fault) -> Unmade {
        Unmade::Refused(fault)
    }
}

impl From<AllocError> for Unmade {
    ghost from_gives = { λ _ unmade. unmade ≡ NoMemory };

    fn from(_want: AllocError) -> Unmade {
        Unmade::NoMemory
    }
}

// The most parties, and the most points.
const MOST: u8 = 32;

fn expect_count(count: u8) -> Result<(), Fault>
    ensures { result ≡ (if within 32 count then Ok tt else Err (book_fault BookCause.OutOfRange)) }
{
    if !(1..=MOST).contains(&count) {
        return Err(BookCause::OutOfRange.into());
    }
    Ok(())
}

// Each party pays its own bill.
fn own_bills(heap: Global, parties: u8) -> Result<Vec<Allocation>, AllocError>
    ensures { IfOk result (λ v. map parts_of v.items ≡ own_bills parties) }
{
    let mut bills = Vec::new(heap);
    for party in 1..=parties {
        bills.push(Allocation::own(party))?;
    }
    Ok(bills)
}

impl Book {
    /// A new book for so many parties and points. This is the one call on a book that allocates.
    pub fn new(heap: Global, parties: u8, points: u8) -> Result<Book, Unmade>
        ensures { Opened parties points result }
    {
        expect_count(parties)?;
        expect_count(points)?;
        let connections = vec![in heap; None; usize::from(points)]?;
        let allocations = own_bills(heap, parties)?;
        let lines = vec![in heap; Line::BLANK; usize::from(parties)]?;
        Ok(Book {
            stage: Stage::Open,
            parties,
            points,
            connections,
            allocations,
            cost: 0,
            provider: None,
            run: 0,
            lines,
            excess: 0,
            purse: 0,
        })
    }
}
