// What is proved of joined points and of swings: each law is the contract of a function that does nothing.
ghost use Rattle.tables.specs.Laws.{GroupsAreConnected, LowestPointsShowGroups, OrderIsNoMatter, OrderIsNoMatterInLayers, OrderIsNoMatterInALayer, JoiningAgainChangesNothing, TotalsAreKept, ExtremesAreMet};

/// The groups are the points that the joins connect.
pub fn groups_are_the_connected_points()
    ensures { GroupsAreConnected }
{}

/// The lowest point of a group shows what its members withdraw and inject together, the others 0.
pub fn lowest_points_show_their_groups()
    ensures { LowestPointsShowGroups }
{}

/// However the joins are reordered, the joined table is the same.
pub fn order_of_joins_is_no_matter()
    ensures { OrderIsNoMatter }
{}

/// That holds with any number of join feeds above and below, and in each of them.
pub fn order_is_no_matter_in_a_stack()
    ensures of_all_layers { OrderIsNoMatterInLayers }
    ensures of_one_layer { OrderIsNoMatterInALayer }
{}

/// Joining the same pair again, or two points that are in one group already, changes nothing.
pub fn joining_again_changes_nothing()
    ensures { JoiningAgainChangesNothing }
{}

/// A joined table keeps what each interval withdraws and injects in all.
pub fn totals_are_kept()
    ensures { TotalsAreKept }
{}

/// The largest and the smallest withdrawal are among the withdrawals, and bound them.
pub fn extremes_are_met()
    ensures { ExtremesAreMet }
{}
