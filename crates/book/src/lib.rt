//! The book of one settlement period.
//!
//! A book is open, drafted or issued. While it is open, notices say who uses, nominates and balances
//! each point, who pays whose bill, and what the frequency control costs. `begin` works out draft
//! notes over any meter feeds and any sharing rule, and answers a claim; giving the claim back, `issue`
//! makes the draft owed and `withdraw` drops it. Then `pay` and `payout` move the money.
//!
//! No `Book` out of balance can exist: what payers owe plus the purse is what payees are owed plus what
//! is held, by the type's own invariant. A refused call leaves the book as it was, and no call but
//! making a book allocates.

#![tactic(auto)]

mod account;
mod claim;
mod connection;
mod line;
mod stage;
mod state;

pub use account::Account;
pub use claim::{Claim, Unspent};
pub use connection::Connection;
pub use stage::Stage;
pub use state::Book;
pub use state::opens::Unmade;
