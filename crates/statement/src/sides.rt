// What a book comes to.
ghost use Rattle.std.specs.Prelude.{◌≡◌, ◌+◌, sum};
ghost use Rattle.book.specs.Journey.{Came};
ghost use Rattle.book.specs.Model.{held};
ghost use Rattle.book.specs.View.{view};
ghost use Rattle.statement.specs.Balanced.{AlwaysBalanced};
ghost use Rattle.statement.specs.Joining.{OrderOfJoinsIsNoMatter};

use book::Book;

/// The two sides of a book, in cents: `owing` and `purse` are together `owed` and `held`.
#[derive(Clone, Copy, PartialEq, Eq, Debug)]
pub struct Sides {
    /// What all payers together owe.
    pub owing: u64,
    /// Money received from payers and not yet paid out.
    pub purse: u64,
    /// What all payees together are owed.
    pub owed: u64,
    /// What is held of the charges that no claim takes.
    pub held: u64,
}

/// What the book comes to.
pub fn balance(book: &Book) -> Sides
    ensures owing_is_the_sum_shown { result.owing ≡ sum (view book.now).accounts.owing }
    ensures purse_is_as_shown { result.purse ≡ (view book.now).accounts.purse }
    ensures owed_is_the_sum_shown { result.owed ≡ sum (view book.now).accounts.owed }
    ensures held_is_as_shown { result.held ≡ held (view book.now) }
    ensures closes { result.owing + result.purse ≡ result.owed + result.held }
    ensures some_lawful_calls_led_here { Came (view book.now) }
    ensures balanced_after_every_list_of_calls { AlwaysBalanced (view book.now) }
    ensures order_of_joins_is_no_matter { OrderOfJoinsIsNoMatter }
{
    Sides {
        owing: book.payers_owe(),
        purse: book.purse(),
        owed: book.payees_are_owed(),
        held: book.held(),
    }
}
