// The size of a table.
ghost use Rattle.std.specs.Prelude.{◌≡◌, ◌&&◌, ◌↔◌, IsSome, IfSome};
ghost use Rattle.tables.specs.Table.{Counted, within};

use crate::limits::{MOST_INTERVALS, MOST_POINTS};
use crate::range::is_inside;

/// How many points and intervals a table has.
#[derive(Clone, Copy, PartialEq, Eq, Debug)]
pub struct Size {
    pub points: u8,
    pub intervals: u32,
    ghost counted: { Counted points intervals },
}

impl Size {
    /// The size of so many points and intervals, where a table may have so many.
    pub fn new(points: u8, intervals: u32) -> Option<Size>
        ensures made { IsSome result ↔ Counted points intervals }
        ensures holds { IfSome result (λ size. (size.points ≡ points) × (size.intervals ≡ intervals)) }
    {
        if is_inside(MOST_POINTS, MOST_INTERVALS, points, intervals) {
            Some(Size { points, intervals })
        } else {
            None
        }
    }

    /// Whether a table of this size has this point and this interval.
    pub fn has(&self, point: u8, interval: u32) -> bool
        ensures { result ≡ (within self.now.points point && within self.now.intervals interval) }
    {
        is_inside(self.points, self.intervals, point, interval)
    }
}
