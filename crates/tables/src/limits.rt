// The size of a table.

/// The most points that a table has.
pub const MOST_POINTS: u8 = 32;

/// The most intervals that a table has: three years of half hours.
pub const MOST_INTERVALS: u32 = 52_608;

/// What all points together withdraw, or inject, in one interval at most, in Wh.
pub const ROW_LIMIT: u64 = 9_000_000_000;
