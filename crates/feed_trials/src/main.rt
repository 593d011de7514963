//! Tries what the proofs say: nine connections across three facilities joined in many orders, alone
//! and in a stack of three join feeds; groups below that joins above know nothing of; lists that are
//! refused; how often each layer of a stack is read; and the swings over the largest table there is.

#![tactic(auto)]

ghost use Rattle.std.specs.Prelude.{◌≡◌};

use faults::Fault;
use feeds::{Feed, JoinFeed, RecordFeed, swing};
use std::alloc::{AllocError, Global};
use std::cell::Cell;
use std::io;
use tables::{MOST_INTERVALS, MOST_POINTS};

const CONNECTIONS: u8 = 9;

const INTERVALS: u32 = 4;

const ORDERS: u32 = 2_000;

// The facilities have the connections 1 4 7, 2 5 8 and 3 6 9; three of the joins say nothing new, and three are refused or idle.
const JOINS: [(u8, u8); 12] = [
    (4, 7),
    (9, 3),
    (8, 2),
    (0, 5),
    (1, 4),
    (5, 8),
    (6, 9),
    (7, 1),
    (2, 5),
    (3, 6),
    (10, 1),
    (6, 6),
];

// Factor and summand of a linear congruential generator of 64 bits.
const FACTOR: u64 = 6_364_136_223_846_793_005;

const SUMMAND: u64 = 1_442_695_040_888_963_407;

// Numbers that look random, each from the last.
#[derive(Drop)]
struct Random {
    state: u64,
}

impl Random {
    fn next(&mut self) -> u64 {
        self.state = self.state.wrapping_mul(FACTOR).wrapping_add(SUMMAND);
        self.state
    }

    fn shuffle(&mut self, pairs: &mut [(u8, u8)]) {
        // By places, since it swaps two of them.
        for i in 1..pairs.len() {
            let j = (self.next() >> 33) as usize % (i + 1);
            pairs.swap(i, j);
        }
    }
}

// How many readings of the two feeds differ.
fn differences<F: Feed, G: Feed>(one: &F, other: &G) -> Result<u32, Fault> {
    let mut count: u32 = 0;
    for interval in 1..=one.intervals() {
        for point in 1..=one.points() {
            if one.read(point, interval)? != other.read(point, interval)? {
                count = count.wrapping_add(1);
            }
        }
    }
    Ok(count)
}

// How many readings differ from those of `first` in the feeds that `again` makes, all orders together.
fn differences_in_many_orders<F: Feed + Drop, B: FnMut(&mut Random) -> F>(
    first: &F,
    mut again: B,
    seed: u64,
) -> Result<u32, Fault>
    requires { B.IsAlwaysCallable again }
{
    let mut random = Random { state: seed };
    let mut count: u32 = 0;
    for _ in 0..ORDERS {
        count = count.wrapping_add(differences(first, &again(&mut random))?);
    }
    Ok(count)
}

fn joined_in_many_orders<F: Feed>(feed: &F, pairs: &mut [(u8, u8)]) -> Result<u32, Fault> {
    let first = JoinFeed::over(feed, pairs);
    differences_in_many_orders(
        &first,
        |random|
            ensures { result.below ≡ feed.entry }
        {
            random.shuffle(pairs);
            JoinFeed::over(feed, pairs)
        },
        1,
    )
}

fn stacked_in_many_orders<F: Feed>(
    feed: &F,
    low: &mut [(u8, u8)],
    middle: &mut [(u8, u8)],
    high: &mut [(u8, u8)],
) -> Result<u32, Fault> {
    let first = JoinFeed::over(JoinFeed::over(JoinFeed::over(feed, low), middle), high);
    differences_in_many_orders(
        &first,
        |random|
            ensures { result.below.below.below ≡ feed.entry }
        {
            random.shuffle(low);
            random.shuffle(middle);
            random.shuffle(high);
            JoinFeed::over(JoinFeed::over(JoinFeed::over(feed, low), middle), high)
        },
        2,
    )
}

// The joins of `JOINS` whose bit is set, made over the feed in the order of the list.
fn joined_by<F: Feed>(feed: F, chosen: u32) -> JoinFeed<F> {
    let mut joined = JoinFeed::new(feed);
    for (k, &(a, b)) in JOINS.iter().enumerate() {
        if (chosen >> k) & 1 == 1 {
            let _ = joined.join(a, b);
        }
    }
    joined
}

// An order of all joins is a walk from none of them to all, a join at each step. How many readings differ, over every
// set of joins and every join that is not in it, between the set with that join made last and the larger set. Where
// none does, all orders there are show the same.
fn steps_of_every_order<F: Feed>(feed: &F) -> Result<(u32, u32), Fault> {
    let mut steps: u32 = 0;
    let mut count: u32 = 0;
    for chosen in 0..1u32 << JOINS.len() {
        for (k, &(a, b)) in JOINS.iter().enumerate() {
            if (chosen >> k) & 1 == 0 {
                let mut last = joined_by(feed, chosen);
                let _ = last.join(a, b);
                let larger = joined_by(feed, chosen | 1 << k);
                count = count.wrapping_add(differences(&last, &larger)?);
                steps = steps.wrapping_add(1);
            }
        }
    }
    Ok((steps, count))
}

// Points 1 and 2 are joined below, 2 and 3 above.
fn two_layers() -> Result<[(u64, u64); 3], Fault> {
    let readings = [(1, 10), (2, 20), (4, 40)];
    let feed = RecordFeed::new(3, 1, &readings)?;
    let low = JoinFeed::over(&feed, &[(1, 2)]);
    let high = JoinFeed::over(&low, &[(2, 3)]);
    Ok([high.read(1, 1)?, high.read(2, 1)?, high.read(3, 1)?])
}

// A feed that counts how often it is read.
#[derive(Drop)]
struct Counted<F> {
    below: F,
    reads: Cell<u64>,
}

impl<F: Feed> Counted<F> {
    fn over(below: F) -> Counted<F> {
        Counted {
            below,
            reads: Cell::new(0),
        }
    }
}

impl<F: Feed> Feed for Counted<F> {
    ghost table = { λ s. F.Feed.table s.below };

    ghost sound = { λ s. F.Feed.sound s.below };

    fn points(&self) -> u8 {
        self.below.points()
    }

    fn intervals(&self) -> u32 {
        self.below.intervals()
    }

    fn read(&self, point: u8, interval: u32) -> Result<(u64, u64), Fault> {
        self.reads.set(self.reads.get().wrapping_add(1));
        self.below.read(point, interval)
    }
}

fn read_all<F: Feed>(feed: &F) -> Result<(), Fault> {
    for interval in 1..=feed.intervals() {
        for point in 1..=feed.points() {
            feed.read(point, interval)?;
        }
    }
    Ok(())
}

// How often each layer is read, the lowest first, where three join feeds are read once at each place.
fn reads_in_a_stack(readings: &[(u64, u64)]) -> Result<(u64, u64, u64), Fault> {
    let lowest = Counted::over(RecordFeed::new(CONNECTIONS, INTERVALS, readings)?);
    let low = Counted::over(JoinFeed::over(&lowest, &JOINS));
    let middle = Counted::over(JoinFeed::over(&low, &[(2, 3), (5, 1), (4, 9)]));
    read_all(&JoinFeed::over(&middle, &[(1, 2), (9, 8), (3, 7)]))?;
    Ok((lowest.reads.get(), low.reads.get(), middle.reads.get()))
}

// Why the list is refused, if it is.
fn refusal(points: u8, intervals: u32, readings: &[(u64, u64)]) -> Option<Fault> {
    RecordFeed::new(points, intervals, readings).err()
}

fn all_swings<F: Feed>(feed: &F) -> Result<u64, Fault> {
    let mut all: u64 = 0;
    for point in 1..=feed.points() {
        all = all.wrapping_add(swing(feed, point)?);
    }
    Ok(all)
}

fn largest_table(heap: Global) -> Result<Vec<(u64, u64)>, AllocError> {
    let mut readings = Vec::new(heap);
    for k in 0..u64::from(MOST_POINTS).wrapping_mul(u64::from(MOST_INTERVALS)) {
        readings.push((k % 1000, k % 7))?;
    }
    Ok(readings)
}

fn largest_stack(readings: &[(u64, u64)]) -> Result<u64, Fault> {
    let feed = RecordFeed::new(MOST_POINTS, MOST_INTERVALS, readings)?;
    let low = JoinFeed::over(&feed, &[(1, 2), (3, 4), (5, 6), (7, 8), (9, 10)]);
    let middle = JoinFeed::over(low, &[(1, 3), (5, 7), (9, 11)]);
    let high = JoinFeed::over(&middle, &[(1, 5), (9, 32)]);
    all_swings(&high)
}

// How many readings differ: joined from not joined, in many orders, in many orders of a stack, and over the steps of
// every order, of which it also has the number.
#[derive(Clone, Copy)]
struct Counts {
    joined: u32,
    orders: u32,
    stacks: u32,
    steps: u32,
    on_the_way: u32,
}

fn small_counts(readings: &[(u64, u64)]) -> Result<Counts, Fault> {
    let feed = RecordFeed::new(CONNECTIONS, INTERVALS, readings)?;
    let joined = differences(&feed, &JoinFeed::over(&feed, &JOINS))?;
    let mut pairs = JOINS;
    let orders = joined_in_many_orders(&feed, &mut pairs)?;
    let mut middle = [(2, 3), (5, 1), (4, 9), (3, 8)];
    let mut high = [(1, 2), (9, 8), (0, 1), (3, 7)];
    let stacks = stacked_in_many_orders(&feed, &mut pairs, &mut middle, &mut high)?;
    let (steps, on_the_way) = steps_of_every_order(&feed)?;
    Ok(Counts {
        joined,
        orders,
        stacks,
        steps,
        on_the_way,
    })
}

fn main(rt: HostRuntime) -> io::Result<()> {
    let mut readings = Vec::new(rt.alloc());
    for k in 0..36u64 {
        readings.push((k * k % 97, 7 * k % 31))?;
    }
    match small_counts(&readings) {
        Ok(counts) => {
            let Counts {
                joined,
                orders,
                stacks,
                steps,
                on_the_way,
            } = counts;
            println!(rt; "joined and not joined: {joined} readings differ")?;
            println!(rt; "{ORDERS} orders of a dozen joins: {orders} readings differ")?;
            println!(rt; "{ORDERS} orders in a stack of three: {stacks} readings differ")?;
            println!(rt;
                "{steps} steps of every order of a dozen joins: {on_the_way} readings differ"
            )?;
        }
        Err(_) => println!(rt; "refused")?,
    }
    match reads_in_a_stack(&readings) {
        Ok((lowest, low, middle)) => {
            println!(rt; "reads of the layers of a stack of three: {lowest} {low} {middle}")?;
        }
        Err(_) => println!(rt; "refused")?,
    }
    for (withdrawn, injected) in two_layers().unwrap_or([(0, 0); 3]) {
        println!(rt; "1 and 2 below, 2 and 3 above: {withdrawn}/{injected}")?;
    }
    let full = (9_000_000_000, 9_000_000_000);
    let over = (9_000_000_001, 0);
    let tried = [
        refusal(0, 1, &[]),
        refusal(33, 1, &[]),
        refusal(1, 0, &[]),
        refusal(1, 52_609, &[]),
        refusal(2, 1, &[full]),
        refusal(2, 1, &[full, full, full]),
        refusal(2, 1, &[full, (0, 0)]),
        refusal(2, 1, &[(u64::MAX, 0), (2, 0)]),
        refusal(2, 3, &[full, (0, 0), (0, 0), full, (0, 0), over]),
        refusal(2, 2, &[full, (0, 0), (1, 0), (0, u64::MAX)]),
    ];
    for refused in tried {
        let (number, at) = refused.map_or((0, 0), |fault| (fault.number(), fault.at));
        println!(rt; "{number} at {at}")?;
    }
    let large = largest_table(rt.alloc())?;
    match largest_stack(&large) {
        Ok(all) => println!(rt; "swings over the largest table: {all}"),
        Err(_) => println!(rt; "refused"),
    }
}
