//! Reads notices and meter files that are written out in hexadecimal, one to a line, and prints what is answered.
//!
//! A line is a word and some bytes. `notice` and `meter` read the bytes; `allocate` writes an allocation
//! into a buffer of as many bytes as the first one tells, and the others are the party and its parts.
//! A line that begins with `#` is printed as it is.

#![tactic(auto)]

use anyhow::anyhow;
use feeds::Feed;
use meters::{FileFeed, read_meter};
use notices::{Notice, read_notice, write_notice};
use std::alloc::Global;
use std::io;
use std::io::Print;

/// The longest notice and a byte after it.
const ROOM: usize = 18;

/// What a buffer holds before anything is written.
const BLANK: u8 = 0xee;

fn show_written(rt: &impl Print, notice: &Notice, out: &mut [u8]) -> io::Result<()> {
    match write_notice(notice, out) {
        Ok(size) => print!(rt; "{size} bytes ")?,
        Err(fault) => print!(rt; "fault {fault} ")?,
    }
    for byte in out {
        print!(rt; "{byte:02x}")?;
    }
    Ok(())
}

fn notice_case(rt: &impl Print, bytes: &[u8]) -> io::Result<()> {
    match read_notice(bytes) {
        Ok((notice, rest)) => {
            let left = rest.len();
            print!(rt; "{notice}, {left} after; ")?;
            show_written(rt, &notice, &mut [BLANK; ROOM])
        }
        Err(fault) => print!(rt; "fault {fault}"),
    }
}

fn show_reading(rt: &impl Print, feed: &FileFeed, point: u8, interval: u32) -> io::Result<()> {
    match feed.read(point, interval) {
        Ok((withdrawn, injected)) => print!(rt; " {withdrawn}/{injected}"),
        Err(fault) => print!(rt; " fault {fault}"),
    }
}

/// All readings of the feed, and one past its last point and its last interval.
fn show_feed(rt: &impl Print, feed: &FileFeed) -> io::Result<()> {
    let points = feed.points();
    let intervals = feed.intervals();
    for interval in 1..=intervals {
        for point in 1..=points {
            show_reading(rt, feed, point, interval)?;
        }
    }
    show_reading(rt, feed, points.wrapping_add(1), 1)?;
    show_reading(rt, feed, 1, intervals.wrapping_add(1))?;
    show_reading(rt, feed, 0, 1)?;
    show_reading(rt, feed, 1, 0)
}

fn meter_case(rt: &impl Print, bytes: &[u8]) -> io::Result<()> {
    match read_meter(bytes) {
        Ok((feed, rest)) => {
            let points = feed.points();
            let intervals = feed.intervals();
            let left = rest.len();
            print!(rt; "{points} points, {intervals} intervals, {left} after;")?;
            show_feed(rt, &feed)
        }
        Err(fault) => print!(rt; "fault {fault}"),
    }
}

fn allocate_case(rt: &impl Print, bytes: &[u8]) -> io::Result<()> {
    let [room, party, parts @ ..] = bytes else {
        return print!(rt; "no allocation");
    };
    let notice = Notice::Allocate {
        party: *party,
        parts,
    };
    let mut out = [BLANK; ROOM];
    let room = usize::from(*room).min(ROOM);
    show_written(rt, &notice, &mut out[..room])
}

/// The bytes that lower-case digits write, two to a byte; one that is left over writes none.
fn bytes_of(heap: Global, text: &str) -> anyhow::Result<Vec<u8>> {
    let digits = text.as_bytes();
    let is_digit = |c: &u8| matches!(*c, b'0'..=b'9' | b'a'..=b'f');
    if !digits.iter().all(is_digit) {
        return Err(anyhow!("not hexadecimal"));
    }
    let pairs = digits.len() / 2;
    let mut bytes = vec![in heap; 0u8; pairs]?;
    hex::decode_to_slice(&digits[..2 * pairs], bytes.as_mut_slice())?;
    Ok(bytes)
}

fn case(rt: &HostRuntime, line: &str) -> anyhow::Result<()> {
    let Some((word, text)) = line.split_once(' ') else {
        return Ok(());
    };
    if word == "#" {
        println!(rt; "{line}")?;
        return Ok(());
    }
    let bytes = bytes_of(rt.alloc(), text)?;
    match word {
        "notice" => notice_case(rt, &bytes)?,
        "meter" => meter_case(rt, &bytes)?,
        "allocate" => allocate_case(rt, &bytes)?,
        _ => return Err(anyhow!("not a case")),
    }
    println!(rt)?;
    Ok(())
}

fn main(rt: HostRuntime) -> anyhow::Result<()> {
    for line in rt.lines(rt.alloc()) {
        case(&rt, line?.as_str())?;
    }
    Ok(())
}
