//! The five notices of the parties, as records of a file.
//!
//! `read_notice` takes the notice at the head of some bytes and answers it with the bytes after it;
//! `write_notice` puts one into the caller's buffer and keeps what lies after it. An allocation
//! lends the bytes of its parts from the file: `part_count` and `part_at` walk them.
//! Every notice written reads back, and every notice read is written back to its own bytes.

#![tactic(auto)]

mod kind;
mod notice;
mod part;
mod read;
mod write;

pub use notice::Notice;
pub use part::{Part, part_at, part_count};
pub use read::read_notice;
pub use write::write_notice;
