// What is proved of the feeds above their contracts: each law is the contract of a function that does nothing.
ghost use Rattle.std.specs.Prelude.{◌≡◌};
ghost use Rattle.std.specs.List.Sorted.{IsPermutation};
ghost use Rattle.tables.specs.Groups.{Joins};
ghost use Rattle.tables.specs.Laws.{SameTotals};
ghost use Rattle.feeds.specs.Joining.{join_table, After};
ghost use Rattle.feeds.specs.Laws.{ListsStandForTables};

use crate::feed::Feed;
use crate::joined::JoinFeed;

/// A list of readings stands for its table, and the refused interval is the first that does not fit.
pub fn lists_stand_for_tables()
    ensures { ListsStandForTables }
{}

/// Whatever was done with a join feed, there are joins that it stands for.
pub fn join_feeds_stand_for_joins<F: Feed>(feed: &JoinFeed<F>)
    ensures { (js : Joins) × After F.Feed.table js feed.now }
{}

/// Two join feeds over feeds of one table show one table if their joins are the same but for the order.
pub fn order_of_joins_is_no_matter<F: Feed, G: Feed>(f: &JoinFeed<F>, g: &JoinFeed<G>)
    ensures { (js ks : Joins) → F.Feed.table f.now.below ≡ G.Feed.table g.now.below → After F.Feed.table js f.now → After G.Feed.table ks g.now → IsPermutation js ks → join_table F.Feed.table f.now ≡ join_table G.Feed.table g.now }
{}

/// A join feed keeps what all points together withdraw and inject in each interval.
pub fn totals_are_kept<F: Feed>(feed: &JoinFeed<F>)
    ensures { SameTotals (F.Feed.table feed.now.below) (join_table F.Feed.table feed.now) }
{}
