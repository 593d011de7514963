//! The one fault type of the engine.
//!
//! Whatever is refused, in whichever crate, is refused with a `Fault`: the layer that refused, that
//! layer's own cause, and the place. Each cause has a fixed number, by which operators know it.

#![tactic(auto)]

ghost use Rattle.std.specs.Prelude.{◌≡◌, Some};
ghost use Rattle.faults.specs.Numbers.{number_of, name_of, text_of, book_fault};
ghost use Rattle.faults.specs.declared.Layer.TheVariants.{Bytes, Meter, Notice, Book};

use std::error::Error;
use std::fmt;

/// What is wrong with a record before its kind is looked at, or with its length.
#[derive(Clone, Copy, PartialEq, Eq, Debug)]
pub enum BytesCause {
    /// There are fewer bytes than the record has.
    TooFewBytes = 20,
    /// The length is below that of a header, or wrong for the kind.
    WrongLength = 21,
}

/// What is wrong with a meter file or with a list of readings.
#[derive(Clone, Copy, PartialEq, Eq, Debug)]
pub enum MeterCause {
    /// This kind of record is not expected here.
    UnexpectedKind = 22,
    /// A value or the size of a list is out of range.
    ValueOutOfRange = 23,
}

/// What is wrong with a notice.
#[derive(Clone, Copy, PartialEq, Eq, Debug)]
pub enum NoticeCause {
    /// This kind of record is no notice.
    UnexpectedKind = 22,
    /// The buffer to write into is too short.
    BufferTooShort = 24,
}

/// What the book refuses, and with it the feeds, the sharing rules and the rates.
#[derive(Clone, Copy, PartialEq, Eq, Debug)]
pub enum BookCause {
    /// The book is in another state.
    WrongState = 1,
    /// A party, a point, an interval, or a count of these is out of range.
    OutOfRange = 2,
    /// The sender is not entitled.
    NotEntitled = 3,
    /// The parts of an allocation break their rule.
    BrokenParts = 4,
    /// A cost is above its limit; a payment or payout is 0 or above what is outstanding.
    WrongAmount = 5,
    /// A feed does not fit the book, or the month is too long.
    UnfitFeed = 6,
    /// A point has no user.
    NoUser = 7,
    /// The swings, the charges or the claims together pass their limit.
    TotalTooLarge = 8,
    /// There is a cost, and every swing is 0.
    NoSwing = 9,
    /// A payout is above the purse.
    PurseTooSmall = 10,
    /// The claim's number is not the draft's.
    OtherRun = 11,
    /// All runs are begun.
    RunsUsedUp = 12,
    /// A sharing rule is asked outside its domain.
    OutsideDomain = 13,
    /// The rates are out of range.
    WrongRates = 14,
}

/// The layer that refused, with its own cause.
#[derive(Clone, Copy, PartialEq, Eq, Debug)]
pub enum Layer {
    Bytes(BytesCause),
    Meter(MeterCause),
    Notice(NoticeCause),
    Book(BookCause),
}

/// A refusal: who refused, why, and where.
#[derive(Clone, Copy, PartialEq, Eq, Debug)]
pub struct Fault {
    pub layer: Layer,
    /// The byte where the record starts, or the position in a list; 0 where there is neither.
    pub at: usize,
}

impl Layer {
    /// The number by which the cause is known.
    pub fn number(self) -> u8
        ensures { result ≡ number_of self }
    {
        match self {
            Layer::Bytes(cause) => cause as u8,
            Layer::Meter(cause) => cause as u8,
            Layer::Notice(cause) => cause as u8,
            Layer::Book(cause) => cause as u8,
        }
    }

    /// The layer's name, in lower case.
    pub fn name(self) -> &'static str
        ensures { result.now ≡ name_of self }
    {
        match self {
            Layer::Bytes(_) => "bytes",
            Layer::Meter(_) => "meter",
            Layer::Notice(_) => "notice",
            Layer::Book(_) => "book",
        }
    }
}

impl From<BytesCause> for Layer {
    ghost from_gives = { λ cause layer. layer ≡ Bytes cause };

    fn from(cause: BytesCause) -> Layer {
        Layer::Bytes(cause)
    }
}

impl From<MeterCause> for Layer {
    ghost from_gives = { λ cause layer. layer ≡ Meter cause };

    fn from(cause: MeterCause) -> Layer {
        Layer::Meter(cause)
    }
}

impl From<NoticeCause> for Layer {
    ghost from_gives = { λ cause layer. layer ≡ Notice cause };

    fn from(cause: NoticeCause) -> Layer {
        Layer::Notice(cause)
    }
}

impl From<BookCause> for Layer {
    ghost from_gives = { λ cause layer. layer ≡ Book cause };

    fn from(cause: BookCause) -> Layer {
        Layer::Book(cause)
    }
}

/// A fault of the layer book has no record behind it, and stands at 0.
impl From<BookCause> for Fault {
    ghost from_gives = { λ cause fault. fault ≡ book_fault cause };

    fn from(cause: BookCause) -> Fault {
        Fault::new(cause, 0)
    }
}

impl Fault {
    /// A fault of the cause's layer, at a byte of a file or at a position in a list.
    pub fn new<C: Into<Layer>>(cause: C, at: usize) -> Fault
        ensures layer { C.converts cause result.layer }
        ensures place { result.at ≡ at }
    {
        let layer = cause.into();
        Fault { layer, at }
    }

    /// The number by which the fault is known.
    pub fn number(self) -> u8
        ensures { result ≡ number_of self.layer }
    {
        self.layer.number()
    }
}

impl fmt::Display for Layer {
    ghost output = { λ layer. Some (name_of layer) };

    fn fmt<W: fmt::Write>(&self, f: &mut fmt::Formatter<W>) -> fmt::Result {
        f.write_str(self.name())
    }
}

/// The layer, the number and the place, as `bytes 20 at 3`.
impl fmt::Display for Fault {
    ghost output = { λ fault. Some (text_of fault) };

    fn fmt<W: fmt::Write>(&self, f: &mut fmt::Formatter<W>) -> fmt::Result {
        let layer = self.layer;
        let number = self.number();
        let at = self.at;
        write!(f, "{layer} {number} at {at}")
    }
}

impl Error for Fault {}
