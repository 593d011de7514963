//! The amounts of one settlement run.
//!
//! `run` takes a grid's `Standing` (nominee and nominator of each point, who pays whose bill, the cost
//! and its provider), rates, a month feed, a reference feed and a sharing rule. It writes a `Note` for
//! each party, its share, charge, due and credit in cents, and answers what is held.
//!
//! Every amount is exactly its formula. The bills add up to the cost and the charges, the dues to the
//! bills, the credits and what is held to the cost and the charges; nothing is above 2,000,000,000 cents.
//! A refusal leaves the notes as they were, and nothing allocates.

#![tactic(auto)]

mod credits;
mod dues;
mod imbalances;
mod lists;
mod month;
pub mod notes;
pub mod running;
mod settling;
mod shares;
pub mod standing;

pub use notes::Note;
pub use running::{feeds_fit, run};
pub use standing::Standing;
