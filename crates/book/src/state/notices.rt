// The calls that notices make.
ghost use Rattle.allocations.specs.Parts.{listed};
ghost use Rattle.book.specs.Steps.{connect, appoint, nominate, allocate, set_cost};
ghost use Rattle.book.specs.View.{told, Stepped};

use crate::connection::Connection;
use crate::stage::Stage;
use crate::state::Book;
use allocations::{Allocation, Part, payers_within};
use faults::{BookCause, Fault};

// In cents.
const MOST_COST: u64 = 1_000_000_000;

impl Book {
    /// The user becomes the point's network user, nominator and nominee.
    pub fn connect(&mut self, point: u8, user: u8) -> Result<(), Fault>
        ensures { Stepped self.old self.new (connect point user) (told result) }
    {
        self.expect_stage(Stage::Open)?;
        let place = self.point_place(point)?;
        self.party_place(user)?;
        self.connections[place] = Some(Connection {
            user,
            nominator: user,
            nominee: user,
        });
        Ok(())
    }

    // This call and the next share their checks below; who is entitled and which field is set differ, and a function of
    // two closures for them would be no plainer.

    /// The point's user, who sends this, names its nominator.
    pub fn appoint(&mut self, sender: u8, point: u8, nominator: u8) -> Result<(), Fault>
        ensures { Stepped self.old self.new (appoint sender point nominator) (told result) }
    {
        self.expect_stage(Stage::Open)?;
        self.party_place(sender)?;
        let place = self.point_place(point)?;
        self.party_place(nominator)?;
        let connection = self.connections[place].ok_or(BookCause::NoUser)?;
        if sender != connection.user {
            return Err(BookCause::NotEntitled.into());
        }
        self.connections[place] = Some(Connection {
            nominator,
            ..connection
        });
        Ok(())
    }

    /// The point's nominator, who sends this, names its nominee.
    pub fn nominate(&mut self, sender: u8, point: u8, nominee: u8) -> Result<(), Fault>
        ensures { Stepped self.old self.new (nominate sender point nominee) (told result) }
    {
        self.expect_stage(Stage::Open)?;
        self.party_place(sender)?;
        let place = self.point_place(point)?;
        self.party_place(nominee)?;
        let connection = self.connections[place].ok_or(BookCause::NoUser)?;
        if sender != connection.nominator {
            return Err(BookCause::NotEntitled.into());
        }
        self.connections[place] = Some(Connection {
            nominee,
            ..connection
        });
        Ok(())
    }

    /// Sets who pays the party's bill.
    pub fn allocate(&mut self, party: u8, parts: &[Part]) -> Result<(), Fault>
        ensures { Stepped self.old self.new (allocate party (listed parts.now)) (told result) }
    {
        self.expect_stage(Stage::Open)?;
        let place = self.party_place(party)?;
        if !payers_within(parts, usize::from(self.parties)) {
            return Err(BookCause::OutOfRange.into());
        }
        self.allocations[place] = Allocation::new(parts)?;
        Ok(())
    }

    /// Sets the cost of frequency control, and who receives it.
    pub fn cost(&mut self, provider: u8, cents: u64) -> Result<(), Fault>
        ensures { Stepped self.old self.new (set_cost provider cents) (told result) }
    {
        self.expect_stage(Stage::Open)?;
        self.party_place(provider)?;
        if cents > MOST_COST {
            return Err(BookCause::WrongAmount.into());
        }
        self.provider = Some(provider);
        self.cost = cents;
        Ok(())
    }
}
