//! Sharing asked for in lines of text.
//!
//! A line is `weight AMOUNT W W ..` or `heads AMOUNT W W ..`, its words set apart by spaces. `reply`
//! answers it: the shares, or the number of the refusal, or that the line is malformed. A line with
//! no word, or whose first word begins with `#`, is passed over in silence. Numbers may have any
//! number of digits.

#![tactic(auto)]

pub mod reading;
pub mod reply;
pub mod words;

pub use reply::{Reply, reply_to};
