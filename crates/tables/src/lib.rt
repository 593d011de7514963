//! What a feed of meter readings means.
//!
//! A feed stands for a table of the Wh that each point withdrew and injected in each interval. The
//! specifications here say what bounds such a table keeps, which points joins put into one group,
//! what the joined table shows, and how far a point's withdrawal swings; `laws` proves what holds of
//! them. Feeds take the limits and the range tests from here, so that they all refuse alike.

#![tactic(auto)]

pub mod laws;
pub mod limits;
pub mod range;
pub mod size;

pub use limits::{MOST_INTERVALS, MOST_POINTS, ROW_LIMIT};
pub use range::{is_inside, is_within, out_of_range};
pub use size::Size;
