//! The statement that a book always balances, on a call that every program can make.
//!
//! `balance` tells what payers owe, the purse, what payees are owed and what is held. Its contract says
//! of the book that it is asked of: the first two together are the last two; some lawful list of calls
//! led to it from a new book; after *every* such list, refused calls included, the book is balanced by
//! its journal, to the cent; and the order in which points were joined before a begin changes no answer
//! and nothing shown. `every_begin_is_lawful` shows that any feeds and any rule make a lawful begin, so
//! that the word lawful asks nothing of a caller.

#![tactic(auto)]

pub mod laws;
pub mod sides;

pub use laws::every_begin_is_lawful;
pub use sides::{Sides, balance};
