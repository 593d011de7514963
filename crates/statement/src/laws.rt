// What the traits see to.
ghost use Rattle.book.specs.Journey.{LawfulCall};
ghost use Rattle.book.specs.Steps.{begin};

use balancing::Rates;
use feeds::Feed;
use sharing::Rule;

/// A begin over any feeds and by any rule is lawful: the feeds' tables keep their bounds and the rule
/// its laws, since whoever made them showed it.
pub fn every_begin_is_lawful<M: Feed, F: Feed, R: Rule>(
    rates: &Rates,
    month: &M,
    reference: &F,
    rule: &R,
)
    ensures { LawfulCall (begin rates.now (M.Feed.table month.now) (F.Feed.table reference.now) (R.Rule.meaning rule.now)) }
{}
