//! Writing notices.
ghost use Rattle.std.specs.Prelude.{◌≤◌, length};
ghost use Rattle.notices.specs.Kinds.{number_of};
ghost use Rattle.notices.specs.Notices.{allocate, said};
ghost use Rattle.notices.specs.Writing.{PutsNotice, Writes};
ghost use Rattle.notices.specs.Laws.{WritesBack};

use crate::kind::Kind;
use crate::notice::Notice;
use crate::part::{MOST_PARTS, PART, are_parts};
use faults::{BytesCause, Fault, NoticeCause};
use files::write_record;

/// The longest body of a notice: a party and its parts.
const LONGEST_BODY: usize = 1 + MOST_PARTS * PART;

/// Writes the record of a notice, or refuses a buffer that is too short.
fn put_notice(kind: Kind, body: &[u8], out: &mut [u8]) -> Result<usize, Fault>
    requires { length body.now ≤ 13 }
    ensures { PutsNotice (number_of kind) body.now out.old out.new result }
{
    write_record(kind.into(), body, out).ok_or(Fault::new(NoticeCause::BufferTooShort, 0))
}

/// Writes an allocation, and refuses a stretch that is not of 0 to 4 parts before a short buffer.
fn put_allocation(party: u8, parts: &[u8], out: &mut [u8]) -> Result<usize, Fault>
    ensures { Writes (allocate party parts.now) out.old out.new result }
{
    if !are_parts(parts) {
        return Err(Fault::new(BytesCause::WrongLength, 0));
    }
    // No call may allocate, so the body is put together in an array that holds the longest.
    let length = 1 + parts.len();
    let mut body = [0; LONGEST_BODY];
    body[0] = party;
    body[1..length].copy_from_slice(parts);
    put_notice(Kind::Allocate, &body[..length], out)
}

/// Writes `notice` to the front of `out`, and answers how many bytes it took.
/// A refusal leaves `out` as it was.
pub fn write_notice(notice: &Notice, out: &mut [u8]) -> Result<usize, Fault>
    ensures writes_the_notice { Writes (said notice.now) out.old out.new result }
    ensures written_reads_back { WritesBack (said notice.now) out.old out.new result }
{
    match *notice {
        Notice::Connect { point, user } => put_notice(Kind::Connect, &[point, user], out),
        Notice::Appoint {
            sender,
            point,
            nominator,
        } => put_notice(Kind::Appoint, &[sender, point, nominator], out),
        Notice::Nominate {
            sender,
            point,
            nominee,
        } => put_notice(Kind::Nominate, &[sender, point, nominee], out),
        Notice::Allocate { party, parts } => put_allocation(party, parts, out),
        Notice::Cost { provider, cents } => {
            let [a, b, c, d] = cents.to_le_bytes();
            put_notice(Kind::Cost, &[provider, a, b, c, d], out)
        }
    }
}
