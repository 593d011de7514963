//! The record form that every file of the engine shares.
//!
//! A record is its whole length and its kind, two bytes each, low byte first, and a body.
//! `open_record` takes the record at the head of some bytes and answers it with the bytes after it;
//! `write_record` puts one into the caller's buffer and keeps what lies after it.
//! Each undoes the other, and no answer depends on what follows a record.

#![tactic(auto)]

mod record;

pub use record::{Record, open_record, write_record};
