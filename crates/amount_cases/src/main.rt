//! Prints amounts that were worked out by hand, or by a count of its own, and are compared with `stdout`.

#![tactic(auto)]

use allocations::{Allocation, Part};
use balancing::Rates;
use billing::{Note, Standing, run};
use faults::Fault;
use feeds::RecordFeed;
use sharing::{ByWeight, Choice, Rule};
use std::{fmt, io};

// What a note holds before a run; a refusal leaves it.
const BEFORE: Note = Note {
    share: 7,
    charge: 7,
    due: 7,
    credit: 7,
};

// What is printed of an answer.
#[derive(Clone, Copy)]
enum Outcome {
    Answered(Result<u64, Fault>),
    // It was not refused, and the notes were written.
    Written,
}

impl fmt::Display for Outcome {
    fn fmt<W: fmt::Write>(&self, f: &mut fmt::Formatter<W>) -> fmt::Result {
        match self {
            Outcome::Answered(Ok(amount)) => write!(f, "{amount}"),
            Outcome::Answered(Err(fault)) => {
                let number = fault.number();
                write!(f, "refused:{number}")
            }
            Outcome::Written => f.write_str("written"),
        }
    }
}

fn print_line<T: fmt::Display>(rt: HostRuntime, name: &str, answers: &[T]) -> io::Result<()> {
    print!(rt; "{name}")?;
    for answer in answers {
        print!(rt; " {answer}")?;
    }
    println!(rt; "")
}

// 13 MWh withdrawn and 2 MWh short, and 2 MWh over; then quantities at the limit and above it.
fn print_interval(rt: HostRuntime) -> io::Result<()> {
    let rates = Rates::PUBLISHED;
    let worked = [
        rates.tolerance(13_000_000),
        rates.charge(2_000_000, 195_000),
        rates.claim(2_000_000),
    ];
    let limits = [
        rates.tolerance(9_000_000_001),
        rates.charge(0, 9_000_000_001),
        rates.claim(9_000_000_000),
    ];
    print_line(rt, "interval", &worked.map(Outcome::Answered))?;
    print_line(rt, "limits", &limits.map(Outcome::Answered))
}

fn dearest(ap: u64, app: u64, margin: u64) -> Result<u64, Fault> {
    Rates::new(ap, app, margin)?.charge(9_000_000_000, 0)
}

fn print_rates(rt: HostRuntime) -> io::Result<()> {
    let charges = [
        dearest(100_000, 100_000, 1_000),
        dearest(0, 0, 0),
        dearest(2, 1, 0),
        dearest(0, 100_001, 0),
        dearest(0, 0, 1_001),
    ];
    print_line(rt, "rates", &charges.map(Outcome::Answered))
}

// Charges shared over claims that are more.
fn print_shortfall(rt: HostRuntime) -> io::Result<()> {
    let mut credits = [0; 2];
    let _ = ByWeight.share(2_402_400, &[3_712_800, 2_016_000], &mut credits);
    print_line(rt, "shortfall", &credits)
}

fn part(payer: u8, thousandths: u16) -> Part {
    Part { payer, thousandths }
}

fn fallen(parts: &[Part], party: u8) -> Result<u64, Fault> {
    Allocation::new(parts)?.falls(10, party)
}

// Ten cents over four whole parts; then parts that are none, five, not rising, with nothing, and of 66,536 thousandths.
fn print_parts(rt: HostRuntime) -> io::Result<()> {
    let (a, b, c) = (part(1, 250), part(2, 250), part(7, 250));
    let falls = [
        fallen(&[a, b, c, part(32, 250)], 2),
        fallen(&[a, b, c, part(32, 250)], 7),
        fallen(&[], 1),
        fallen(&[a, b, c, part(8, 200), part(9, 50)], 1),
        fallen(&[part(2, 500), part(2, 500)], 2),
        fallen(&[part(1, 0), part(2, 1_000)], 2),
        fallen(&[part(1, 65_000), part(2, 1_536)], 2),
    ];
    print_line(rt, "parts", &falls.map(Outcome::Answered))
}

// Two intervals of three points, in Wh, and tables of two points.
const THREE: [(u64, u64); 6] = [
    (1_000_000, 0),
    (0, 970_000),
    (1_000_000, 1_010_000),
    (600_000, 0),
    (0, 600_000),
    (800_000, 800_000),
];

const SHORT: [(u64, u64); 4] = [(900_000, 100_000), (0, 700_007), (5, 0), (3, 900_000)];

const SWUNG: [(u64, u64); 4] = [(10, 9), (1, 0), (4, 0), (3, 9)];

const FLAT: [(u64, u64); 4] = [(5, 0), (6, 1), (5, 2), (6, 3)];

const WIDE: [(u64, u64); 4] = [(9_000_000_000, 0), (0, 0), (0, 0), (1, 0)];

const CHARGED: [(u64, u64); 4] = [(9_000_000_000, 0), (0, 0), (1_000_010_000, 0), (0, 0)];

const CLAIMED: [(u64, u64); 4] = [(0, 9_000_000_000), (0, 0), (0, 0), (0, 1_000_010_000)];

// One case: who answers for the points, what is shared how, and the tables.
#[derive(Clone, Copy)]
struct Case<'a> {
    ap: u64,
    app: u64,
    rule: Choice,
    cost: u64,
    provider: Option<u8>,
    nominees: &'a [u8],
    nominators: &'a [u8],
    points: u8,
    month: &'a [(u64, u64)],
    reference: &'a [(u64, u64)],
}

// The run by hand: party 1 shares its bill with party 3.
const BY_HAND: Case<'static> = Case {
    ap: 16_800,
    app: 21_840,
    rule: Choice::Weight,
    cost: 100_001,
    provider: Some(2),
    nominees: &[2, 2, 3],
    nominators: &[1, 2, 3],
    points: 3,
    month: &THREE,
    reference: &THREE,
};

const OF_TWO: Case<'static> = Case {
    ap: 16_800,
    app: 21_840,
    rule: Choice::Weight,
    cost: 1_000,
    provider: Some(1),
    nominees: &[1, 2],
    nominators: &[1, 3],
    points: 2,
    month: &SHORT,
    reference: &SWUNG,
};

fn settle(case: &Case, notes: &mut [Note]) -> Result<u64, Fault> {
    let rates = Rates::new(case.ap, case.app, 15)?;
    let month = RecordFeed::new(case.points, 2, case.month)?;
    let reference = RecordFeed::new(case.points, 2, case.reference)?;
    let standing = Standing {
        nominees: case.nominees,
        nominators: case.nominators,
        allocations: &[
            Allocation::new(&[part(1, 500), part(3, 500)])?,
            Allocation::own(2),
            Allocation::own(3),
        ],
        cost: case.cost,
        provider: case.provider,
    };
    run(&standing, &rates, &month, &reference, &case.rule, notes)
}

fn print_run(rt: HostRuntime, name: &str, case: &Case) -> io::Result<()> {
    let mut notes = [BEFORE; 3];
    let held = Outcome::Answered(settle(case, &mut notes));
    print_line(rt, name, &[held])?;
    for note in &notes {
        print_line(rt, " ", &[note.share, note.charge, note.due, note.credit])?;
    }
    Ok(())
}

// The run by hand with another cost, provider and nominators, by heads or by weight.
fn shared(
    rule: Choice,
    cost: u64,
    provider: Option<u8>,
    nominators: &'static [u8],
) -> Case<'static> {
    Case {
        rule,
        cost,
        provider,
        nominators,
        ..BY_HAND
    }
}

// Two points on these tables, at the largest prices.
fn dear(
    month: &'static [(u64, u64)],
    reference: &'static [(u64, u64)],
    cost: u64,
) -> Case<'static> {
    Case {
        ap: 100_000,
        app: 100_000,
        month,
        reference,
        cost,
        ..OF_TWO
    }
}

fn print_runs(rt: HostRuntime) -> io::Result<()> {
    let by_heads = shared(Choice::Heads, 100_001, Some(3), &[1, 3, 3]);
    let free = shared(Choice::Weight, 0, None, &[0, 0, 0]);
    print_run(rt, "by hand", &BY_HAND)?;
    print_run(rt, "by heads", &by_heads)?;
    print_run(rt, "free", &free)?;
    print_run(rt, "claims over charges", &OF_TWO)
}

// What is answered where the notes stay as they were.
fn refusal(case: &Case) -> Outcome {
    let mut notes = [BEFORE; 3];
    let answer = settle(case, &mut notes);
    if notes[2].due == BEFORE.due {
        Outcome::Answered(answer)
    } else {
        Outcome::Written
    }
}

// A provider that is no party, a cost without one, a nominator too few, a cost above its limit, a feed
// that does not fit, weights of nobody.
fn print_refusals(rt: HostRuntime) -> io::Result<()> {
    let unfit = Case {
        nominees: &[2, 3],
        nominators: &[1, 3],
        ..BY_HAND
    };
    let numbers = [
        refusal(&shared(Choice::Weight, 1, Some(4), &[1, 2, 3])),
        refusal(&shared(Choice::Weight, 1, None, &[1, 2, 3])),
        refusal(&shared(Choice::Weight, 1, Some(1), &[1, 2])),
        refusal(&shared(Choice::Weight, 1_000_000_001, Some(1), &[1, 2, 3])),
        refusal(&unfit),
        refusal(&shared(Choice::Heads, 1, Some(1), &[4, 4, 4])),
    ];
    print_line(rt, "refusals", &numbers)
}

// Swings of 9,000,000,001 Wh at no cost, charges and claims of 1,000,001,000 cents, no swing at a cost and at none.
fn print_totals(rt: HostRuntime) -> io::Result<()> {
    let numbers = [
        refusal(&dear(&FLAT, &WIDE, 0)),
        refusal(&dear(&CHARGED, &FLAT, 0)),
        refusal(&dear(&CLAIMED, &FLAT, 0)),
        refusal(&dear(&FLAT, &FLAT, 1)),
        refusal(&dear(&FLAT, &FLAT, 0)),
    ];
    print_line(rt, "totals", &numbers)
}

fn main(rt: HostRuntime) -> io::Result<()> {
    print_interval(rt)?;
    print_rates(rt)?;
    print_shortfall(rt)?;
    print_parts(rt)?;
    print_runs(rt)?;
    print_refusals(rt)?;
    print_totals(rt)
}
