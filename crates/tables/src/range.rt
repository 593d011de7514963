// What lies inside a table.
ghost use Rattle.std.specs.Prelude.{◌≡◌, ◌&&◌};
ghost use Rattle.tables.specs.Table.{within, outside};

use faults::{BookCause, Fault};

/// Whether there is such a number among so many, which are numbered from 1.
pub fn is_within(count: u32, number: u32) -> bool
    ensures { result ≡ within count number }
{
    (1..=count).contains(&number)
}

/// Whether a table of these counts has this point and this interval.
pub fn is_inside(points: u8, intervals: u32, point: u8, interval: u32) -> bool
    ensures { result ≡ (within points point && within intervals interval) }
{
    is_within(u32::from(points), u32::from(point)) && is_within(intervals, interval)
}

/// The refusal of a point or an interval outside a table, or of a count of these.
pub fn out_of_range() -> Fault
    ensures { result ≡ outside }
{
    BookCause::OutOfRange.into()
}
