// How far a point's withdrawal swings.
ghost use Rattle.std.specs.Prelude.{◌≡◌};
ghost use Rattle.tables.specs.Swing.{swing_of};

use crate::feed::Feed;
use faults::Fault;

/// The largest less the smallest withdrawal of a point over all intervals, in Wh. Each interval is
/// read once. A point outside the feed is refused with 2.
pub fn swing<F: Feed>(feed: &F, point: u8) -> Result<u64, Fault>
    ensures { result ≡ swing_of (F.Feed.table feed.now) point }
{
    let (first, _) = feed.read(point, 1)?;
    let mut smallest = first;
    let mut largest = first;
    for interval in 2..=feed.intervals() {
        let (withdrawn, _) = feed.read(point, interval)?;
        smallest = smallest.min(withdrawn);
        largest = largest.max(withdrawn);
    }
    Ok(largest - smallest)
}
