// What a line asks for.
ghost use Rattle.std.specs.Prelude.{◌≡◌, IfOk, vec_items};
ghost use Rattle.std.specs.Option.{option_map};
ghost use Rattle.sharing_text.specs.Request.{rule_named, number_of, numbers_of, capped, all_capped};
ghost use Rattle.sharing_text.specs.Words.{words};

use crate::words::next_word;
use sharing::Choice;
use std::alloc::{AllocError, Global};

pub(crate) fn rule_named(name: &[u8]) -> Option<Choice>
    ensures { result ≡ rule_named name.now }
{
    match name {
        b"weight" => Some(Choice::Weight),
        b"heads" => Some(Choice::Heads),
        _ => None,
    }
}

// The number that a word writes, or the largest there is where it is larger.
pub(crate) fn number(word: &[u8]) -> Option<u64>
    ensures { result ≡ option_map capped (number_of word.now) }
{
    if word.is_empty() {
        return None;
    }
    let mut value: u64 = 0;
    for &byte in word {
        if !byte.is_ascii_digit() {
            return None;
        }
        value = value
            .saturating_mul(10)
            .saturating_add(u64::from(byte - b'0'));
    }
    Some(value)
}

// The numbers that the words of a text write.
pub(crate) fn numbers(heap: Global, text: &[u8]) -> Result<Option<Vec<u64>>, AllocError>
    ensures { IfOk result (λ o. option_map vec_items o ≡ option_map all_capped (numbers_of (words text.now))) }
{
    let mut numbers = Vec::new(heap);
    let mut rest = text;
    while let Some((word, after)) = next_word(rest) {
        let Some(value) = number(word) else {
            return Ok(None);
        };
        numbers.push(value)?;
        rest = after;
    }
    Ok(Some(numbers))
}
