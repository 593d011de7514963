// The words of a text.
ghost use Rattle.std.specs.Prelude.{◌≡◌, ◌<◌, [], ◌∷◌, length, IfSome, IsNone};
ghost use Rattle.sharing_text.specs.Words.{words, word_of, after_word};

/// The first word of the text, and what follows it, where there is a word.
pub(crate) fn next_word(text: &[u8]) -> Option<(&[u8], &[u8])>
    ensures none { IsNone result → words text.now ≡ [] }
    ensures word { IfSome result (λ cut. cut.0.now ≡ word_of text.now) }
    ensures rest { IfSome result (λ cut. cut.1.now ≡ after_word text.now) }
    ensures first { IfSome result (λ cut. words text.now ≡ cut.0.now ∷ words cut.1.now) }
    ensures less { IfSome result (λ cut. length cut.1.now < length text.now) }
{
    let start = text.iter().position(|&byte| byte != b' ');
    let (_, text) = text.split_at(start.unwrap_or(text.len()));
    let end = text.iter().position(|&byte| byte == b' ');
    let (word, rest) = text.split_at(end.unwrap_or(text.len()));
    if word.is_empty() {
        None
    } else {
        Some((word, rest))
    }
}
