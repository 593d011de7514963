//! One run on any standing, rates, feeds and rule.
ghost use Rattle.std.specs.Prelude.{◌≡◌, length};
ghost use Rattle.billing.specs.Run.{inputs, feeds_fit, Settled};

use crate::notes::Note;
use crate::settling::draft;
use crate::standing::Standing;
use balancing::Rates;
use faults::{BookCause, Fault};
use feeds::Feed;
use sharing::Rule;

/// The most intervals that a month has: 31 days of half hours.
const MOST_INTERVALS: u32 = 1_488;

/// Whether both feeds have so many points, and the month is not too long.
#[tactic(auto, unfolding(crate::specs::Run::feeds_fit))]
pub fn feeds_fit<M: Feed, F: Feed>(points: usize, month: &M, reference: &F) -> bool
    ensures { result ≡ feeds_fit points (M.Feed.table month.now) (F.Feed.table reference.now) }
{
    usize::from(month.points()) == points
        && usize::from(reference.points()) == points
        && month.intervals() <= MOST_INTERVALS
}

/// Works out the note of each party, as many as `notes` has places, and answers what is held. A refusal
/// leaves the notes as they were. Of the month each party's points are read once, of the reference feed
/// each point.
pub fn run<M: Feed, F: Feed, R: Rule>(
    standing: &Standing,
    rates: &Rates,
    month: &M,
    reference: &F,
    rule: &R,
    notes: &mut [Note],
) -> Result<u64, Fault>
    ensures { Settled (inputs standing.now rates.now (M.Feed.table month.now) (F.Feed.table reference.now) (R.Rule.meaning rule.now) (length notes.old)) result notes.old notes.new }
{
    standing.check(notes.len())?;
    if !feeds_fit(standing.nominees.len(), month, reference) {
        return Err(BookCause::UnfitFeed.into());
    }
    draft(standing, rates, month, reference, rule, notes)
}
