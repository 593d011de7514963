//! What an imbalance costs and what it earns, in one interval.
//!
//! `Rates` holds the two prices and the margin; made by `Rates::new`, or the published ones by
//! `Rates::PUBLISHED`. `tolerance`, `charge` and `claim` answer one quantity each, and `amounts` both
//! amounts of an interval, in microcents (millionths of a cent), exact. A quantity above 9,000,000,000 Wh
//! is refused; nothing else is.

#![tactic(auto)]

pub mod figures;
pub mod rates;

pub use figures::figures_hold;
pub use rates::Rates;
