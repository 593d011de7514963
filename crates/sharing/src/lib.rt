//! Sharing an amount of cents over weights, with no cent lost and none invented.
//!
//! A rule takes an amount and a list of weights to a list of shares, one for each weight:
//!
//!     let mut shares = [0; 3];
//!     ByWeight.share(100_001, &[400_000, 0, 200_000], &mut shares)?;   // 66_667, 0, 33_334
//!
//! The amount is 0 to 2,000,000,000 cents; there are 1 to 32 weights, any `u64` each, whose total is 1
//! to 9,000,000,000. Outside this, or where `shares` has another length than `weights`, a rule refuses
//! with number 13 and writes nothing. Otherwise it never refuses, and it never allocates.
//!
//! Every rule promises: one share for each weight; the shares add up to the amount; a weight of 0 has
//! share 0. `ByWeight` gives amount × weight ÷ total rounded down, and the cents left one each to the
//! largest remainders, equal ones to the earlier place. `ByHeads` counts each weight that is not 0
//! as 1. `Choice` is the one or the other, chosen as the program runs. A rule of your own implements
//! `Rule`: it states its meaning and shows the three laws of it. `total_within` adds up a list of amounts
//! that must not pass a limit.

#![tactic(auto)]

pub mod by_heads;
pub mod by_weight;
pub mod choice;
pub mod figures;
pub mod rule;
mod split;
pub mod total;

pub use by_heads::ByHeads;
pub use by_weight::{ByWeight, by_weight_is_the_fair_way};
pub use choice::Choice;
pub use figures::figures_hold;
pub use rule::Rule;
pub use total::total_within;
