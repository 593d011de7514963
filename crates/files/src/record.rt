//! A record: its whole length and its kind, two bytes each, and its body.
ghost use Rattle.std.specs.Prelude.{◌≡◌, ◌+◌, ◌≤◌, length};
ghost use Rattle.files.specs.Records.{framed, over, Opens, OpensBack, Puts, PutsBack};

use faults::{BytesCause, Fault};

/// The bytes of a record before its body.
const HEADER: usize = 4;

/// The kind of a record, and the stretch of the file that is its body.
#[derive(Clone, Copy)]
pub struct Record<'a> {
    /// A number, since the record form knows no kinds: each kind of file has its own.
    pub kind: u16,
    pub body: &'a [u8],
}

/// The record that `bytes` begin with, and the bytes after it.
/// A fault stands at `at`, the byte of the file where the record starts.
pub fn open_record<'a>(bytes: &'a [u8], at: usize) -> Result<(Record<'a>, &'a [u8]), Fault>
    ensures opens_the_first_record { Opens bytes.now at result }
    ensures every_record_opens { OpensBack bytes.now result }
{
    let [a, b, c, d, rest @ ..] = bytes else {
        return Err(Fault::new(BytesCause::TooFewBytes, at));
    };
    let length = usize::from(u16::from_le_bytes([*a, *b]));
    if length < HEADER {
        return Err(Fault::new(BytesCause::WrongLength, at));
    }
    let Some((body, rest)) = rest.split_at_checked(length - HEADER) else {
        return Err(Fault::new(BytesCause::TooFewBytes, at));
    };
    let kind = u16::from_le_bytes([*c, *d]);
    Ok((Record { kind, body }, rest))
}

/// Writes the record of this kind, whole length and body to the front of `out`, which has room for it.
fn put_record(kind: u16, size: u16, body: &[u8], out: &mut [u8])
    requires its_size { size ≡ 4 + length body.now }
    requires room { size ≤ length out.old }
    ensures { out.new ≡ over (framed kind body.now) out.old }
{
    out[..2].copy_from_slice(&size.to_le_bytes());
    out[2..HEADER].copy_from_slice(&kind.to_le_bytes());
    out[HEADER..HEADER + body.len()].copy_from_slice(body);
}

/// Writes the record of this kind and body to the front of `out`, and answers its whole length.
/// Answers `None`, and writes nothing, where `out` is shorter than the record or the body is longer than a record's.
pub fn write_record(kind: u16, body: &[u8], out: &mut [u8]) -> Option<usize>
    ensures writes_the_record { Puts kind body.now out.old out.new result }
    ensures written_opens_again { PutsBack kind body.now out.old out.new result }
{
    let size = HEADER + body.len();
    let length = u16::try_from(size).ok()?;
    if out.len() < size {
        return None;
    }
    put_record(kind, length, body, out);
    Some(size)
}
