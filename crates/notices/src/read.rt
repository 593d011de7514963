//! Reading notices.
ghost use Rattle.notices.specs.Reading.{Names, Reads};
ghost use Rattle.notices.specs.Laws.{OwnBytes, ReadWritten, ReadsBack};

use crate::kind::Kind;
use crate::notice::Notice;
use crate::part::are_parts;
use faults::{BytesCause, Fault};
use files::{Record, open_record};

/// The notice that a record holds. Its fault stands at 0, where the record starts.
fn notice_of<'a>(held: Record<'a>) -> Result<Notice<'a>, Fault>
    ensures { Names held.entry.kind held.entry.body.now result }
{
    let kind = Kind::try_from(held.kind)?;
    match (kind, held.body) {
        (Kind::Connect, &[point, user]) => Ok(Notice::Connect { point, user }),
        (Kind::Appoint, &[sender, point, nominator]) => Ok(Notice::Appoint {
            sender,
            point,
            nominator,
        }),
        (Kind::Nominate, &[sender, point, nominee]) => Ok(Notice::Nominate {
            sender,
            point,
            nominee,
        }),
        (Kind::Allocate, [party, parts @ ..]) if are_parts(parts) => Ok(Notice::Allocate {
            party: *party,
            parts,
        }),
        (Kind::Cost, [provider, a, b, c, d]) => Ok(Notice::Cost {
            provider: *provider,
            cents: u32::from_le_bytes([*a, *b, *c, *d]),
        }),
        _ => Err(Fault::new(BytesCause::WrongLength, 0)),
    }
}

/// The notice that `bytes` begin with, and the bytes after it.
pub fn read_notice<'a>(bytes: &'a [u8]) -> Result<(Notice<'a>, &'a [u8]), Fault>
    ensures reads_the_first_notice { Reads bytes.now result }
    ensures every_notice_reads_back { ReadsBack bytes.now result }
    ensures read_is_written_back_to_its_bytes { ReadWritten bytes.now result }
    ensures only_its_own_bytes_count { OwnBytes bytes.now result }
{
    let (held, rest) = open_record(bytes, 0)?;
    let notice = notice_of(held)?;
    Ok((notice, rest))
}
