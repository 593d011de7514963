// The answer to a line.
ghost use Rattle.std.specs.Prelude.{◌≡◌, ◌==◌, IfOk, slice_index};
ghost use Rattle.sharing_text.specs.Replies.{told, RefusesOutside, shared_by, reply_of};

use crate::reading::{number, numbers, rule_named};
use crate::words::next_word;
use faults::Fault;
use sharing::{Choice, Rule};
use std::alloc::{AllocError, Global};
use std::fmt;

#[derive(Drop)]
pub enum Reply {
    /// The line asks for nothing.
    Silence,
    Malformed,
    Refused(Fault),
    /// Cents, one share for each weight.
    Shares(Vec<u64>),
}

// Shares the amount, which the rule may refuse.
fn shared(heap: Global, rule: Choice, amount: u64, weights: &[u64]) -> Result<Reply, AllocError>
    ensures answers { IfOk result (λ reply. told reply ≡ shared_by rule amount weights.now) }
    ensures refusal { IfOk result RefusesOutside }
{
    let mut shares = vec![in heap; 0u64; weights.len()]?;
    match rule.share(amount, weights, shares.as_mut_slice()) {
        Ok(()) => Ok(Reply::Shares(shares)),
        Err(fault) => Ok(Reply::Refused(fault)),
    }
}

// Whether a line with this first word is passed over.
fn is_comment(name: &[u8]) -> bool
    ensures { result ≡ (slice_index name.now 0 == 35) }
{
    name.first() == Some(&b'#')
}

/// The answer to one line of text.
pub fn reply_to(heap: Global, line: &[u8]) -> Result<Reply, AllocError>
    ensures answers { IfOk result (λ reply. told reply ≡ reply_of line.now) }
    ensures refusal { IfOk result RefusesOutside }
{
    let Some((name, rest)) = next_word(line) else {
        return Ok(Reply::Silence);
    };
    if is_comment(name) {
        return Ok(Reply::Silence);
    }
    let Some(rule) = rule_named(name) else {
        return Ok(Reply::Malformed);
    };
    let Some((word, rest)) = next_word(rest) else {
        return Ok(Reply::Malformed);
    };
    let Some(amount) = number(word) else {
        return Ok(Reply::Malformed);
    };
    let Some(weights) = numbers(heap, rest)? else {
        return Ok(Reply::Malformed);
    };
    shared(heap, rule, amount, weights.as_slice())
}

impl fmt::Display for Reply {
    fn fmt<W: fmt::Write>(&self, f: &mut fmt::Formatter<W>) -> fmt::Result {
        match self {
            Reply::Silence => Ok(()),
            Reply::Malformed => f.write_str("malformed"),
            Reply::Refused(fault) => {
                let number = fault.number();
                write!(f, "refused {number}")
            }
            Reply::Shares(shares) => {
                if let Some((first, rest)) = shares.split_first() {
                    write!(f, "{first}")?;
                    for share in rest {
                        write!(f, " {share}")?;
                    }
                }
                Ok(())
            }
        }
    }
}
