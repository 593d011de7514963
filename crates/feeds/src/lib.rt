//! Feeds of meter readings.
//!
//! A `Feed` tells its points, its intervals, and what a point withdrew and injected in an interval.
//! A `RecordFeed` lies over a list of readings in memory; a `JoinFeed` stands over any feed and adds
//! the readings of joined points; a borrowed feed is a feed. Every feed has a table as its meaning,
//! which keeps the bounds of tables, and each answer is the table's. `swing` reads any feed.
//!
//! No call on a feed allocates. A read of a join feed at the lowest point of a group reads each point
//! of the group below once, and at any other point reads nothing below: in a stack of k join feeds,
//! reading all points of an interval takes k times as many reads as there are points.

#![tactic(auto)]

pub mod covered;
pub mod feed;
pub mod joined;
pub mod laws;
pub mod recorded;
pub mod swings;

pub use covered::Covered;
pub use feed::Feed;
pub use joined::JoinFeed;
pub use recorded::RecordFeed;
pub use swings::swing;
