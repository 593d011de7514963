// Beginning a run.
ghost use Rattle.std.specs.Prelude.{◌≡◌, ◌≤◌, map, length};
ghost use Rattle.std.specs.Result.{result_err};
ghost use Rattle.billing.specs.Run.{Settled};
ghost use Rattle.book.specs.Model.{notes_on, owing_on, owed_on};
ghost use Rattle.book.specs.Steps.{all_connected, nominee_number, nominator_number, inputs_of, obstacle, begin};
ghost use Rattle.book.specs.View.{view, told_run, Stepped};

use crate::claim::Claim;
use crate::connection::Connection;
use crate::line::{BLANK_NOTE, Line};
use crate::stage::Stage;
use crate::state::Book;
use arrayvec::ArrayVec;
use balancing::Rates;
use billing::{Note, Standing, feeds_fit, run};
use faults::{BookCause, Fault};
use feeds::Feed;
use sharing::Rule;

const MOST_RUNS: u16 = 1_000;

// The most points, and the most parties.
const MOST_PLACES: usize = 32;

fn are_all_connected(connections: &[Option<Connection>]) -> bool
    ensures { result ≡ all_connected connections.now }
{
    connections.iter().all(|connection| connection.is_some())
}

// The nominee and the nominator of each point, 0 where it has no user: so a standing counts nobody.
fn answerable(
    connections: &[Option<Connection>],
) -> (ArrayVec<u8, MOST_PLACES>, ArrayVec<u8, MOST_PLACES>)
    requires { length connections.now ≤ 32 }
    ensures nominees { result.0.items ≡ map nominee_number connections.now }
    ensures nominators { result.1.items ≡ map nominator_number connections.now }
{
    let mut nominees = ArrayVec::new();
    let mut nominators = ArrayVec::new();
    for connection in connections {
        nominees.push(connection.map_or(0, |parties| parties.nominee));
        nominators.push(connection.map_or(0, |parties| parties.nominator));
    }
    (nominees, nominators)
}

// Writes the notes to the lines. They are counted, since what is written through a zip is not known after it.
fn write_notes(lines: &mut [Line], notes: &[Note])
    requires { length notes.now ≡ length lines.old }
    ensures notes { notes_on lines.new ≡ notes.now }
    ensures owing { owing_on lines.new ≡ owing_on lines.old }
    ensures owed { owed_on lines.new ≡ owed_on lines.old }
{
    for (i, line) in lines.iter_mut().enumerate() {
        line.note = notes[i];
    }
}

impl Book {
    // Refuses where a run can't be begun, before any amount is worked out.
    fn expect_clear<M: Feed, F: Feed>(&self, month: &M, reference: &F) -> Result<(), Fault>
        ensures { result_err result ≡ obstacle (view self.now) (M.Feed.table month.now) (F.Feed.table reference.now) }
    {
        self.expect_stage(Stage::Open)?;
        if self.run >= MOST_RUNS {
            return Err(BookCause::RunsUsedUp.into());
        }
        if !feeds_fit(usize::from(self.points), month, reference) {
            return Err(BookCause::UnfitFeed.into());
        }
        if !are_all_connected(&self.connections) {
            return Err(BookCause::NoUser.into());
        }
        Ok(())
    }

    // Works out the notes, and what is to be held.
    fn work_out<M: Feed, F: Feed, R: Rule>(
        &self,
        rates: &Rates,
        month: &M,
        reference: &F,
        rule: &R,
        notes: &mut [Note],
    ) -> Result<u64, Fault>
        requires { length notes.old ≡ self.now.parties }
        ensures { Settled (inputs_of (view self.now) rates.now (M.Feed.table month.now) (F.Feed.table reference.now) (R.Rule.meaning rule.now)) result notes.old notes.new }
    {
        let (nominees, nominators) = answerable(&self.connections);
        let standing = Standing {
            nominees: &nominees,
            nominators: &nominators,
            allocations: &self.allocations,
            cost: self.cost,
            provider: self.provider,
        };
        run(&standing, rates, month, reference, rule, notes)
    }

    /// Works out draft notes over the feeds, at the rates and by the rule, and answers the claim to them.
    pub fn begin<M: Feed, F: Feed, R: Rule>(
        &mut self,
        rates: &Rates,
        month: &M,
        reference: &F,
        rule: &R,
    ) -> Result<Claim, Fault>
        ensures { Stepped self.old self.new (begin rates.now (M.Feed.table month.now) (F.Feed.table reference.now) (R.Rule.meaning rule.now)) (told_run result) }
    {
        self.expect_clear(month, reference)?;
        // On the stack, since no call on a book allocates.
        let mut notes = [BLANK_NOTE; MOST_PLACES];
        let notes = &mut notes[..usize::from(self.parties)];
        let excess = self.work_out(rates, month, reference, rule, notes)?;
        write_notes(self.lines.as_mut_slice(), notes);
        self.excess = excess;
        self.run += 1;
        self.stage = Stage::Drafted;
        Ok(Claim { run: self.run })
    }
}
