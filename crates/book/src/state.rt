// The book, with what holds of every book.
ghost use Rattle.std.specs.Prelude.{List};
ghost use Rattle.book.specs.Journey.{Came};
ghost use Rattle.book.specs.Model.{state_of};
ghost use Rattle.book.specs.Sound.{Sound};

use crate::connection::Connection;
use crate::line::Line;
use crate::stage::Stage;
use allocations::Allocation;

mod begins;
mod calls;
mod checks;
mod notices;
pub mod opens;
mod questions;

/// The book of one period of one grid.
#[derive(Drop)]
pub struct Book {
    stage: Stage,
    // How many parties and points there are, as the calls number them; each list is as long.
    parties: u8,
    points: u8,
    // One for each point, in number order; a point without user has none.
    connections: Vec<Option<Connection>>,
    // One for each party, in number order, beside the lines, since a run takes them as a list of their own.
    allocations: Vec<Allocation>,
    // In cents.
    cost: u64,
    provider: Option<u8>,
    // How many runs were begun.
    run: u16,
    // One for each party, in number order.
    lines: Vec<Line>,
    // By how much the charges of the draft exceed its claims: what is to be held.
    excess: u64,
    // Money received from payers and not yet paid out.
    purse: u64,
    ghost sound: { Sound (state_of stage parties points connections.items allocations.items cost provider run lines.items excess purse) },
    ghost came: { Came (state_of stage parties points connections.items allocations.items cost provider run lines.items excess purse) },
}
