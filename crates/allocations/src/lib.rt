//! Who pays a party's bill.
//!
//! An `Allocation` has 1 to 4 parts, each a payer with its thousandths of the bill. `Allocation::own`
//! has a party pay its own bill, `Allocation::new` takes parts and refuses broken ones, and `falls`
//! tells what falls of a bill to a party: the bill is shared by weight over the thousandths, and what
//! falls to all the parties is the bill, to the cent.

#![tactic(auto)]

pub mod allocation;
pub mod parts;

pub use allocation::{Allocation, own_amount};
pub use parts::{Part, are_whole, payers_within};
