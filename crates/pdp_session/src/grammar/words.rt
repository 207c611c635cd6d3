ghost use Rattle.std.specs.Prelude.{◌≡◌, ◌<◌, ◌≤◌, ◌||◌, ◌==◌, false, [], ◌∷◌, length, MatchOption};
ghost use Rattle.std.specs.Prelude.{IfSome};
ghost use Rattle.std.specs.List.{position_or_len, slice_get};
ghost use Rattle.pdp_session.specs.Grammar.Words.{is_blank, words_of_line};

/// The first word of a text, and what follows it; `None` if the text has no word.
#[tactic(auto, using(crate::proofs::WordLists::words))]
pub fn next_word(text: &[u8]) -> Option<(&[u8], &[u8])>
    ensures words { MatchOption result (words_of_line text.now ≡ [])
        (λ p. words_of_line text.now ≡ p.0.now ∷ words_of_line p.1.now) }
    ensures shorter { IfSome result (λ p. length p.1.now < length text.now) }
{
    let text = skip_blanks(text);
    if text.is_empty() {
        return None;
    }
    Some(text.split_at(word_length(text)))
}

/// The text from its first byte on that is no blank.
#[tactic(auto, using(crate::proofs::WordLists::words))]
fn skip_blanks(text: &[u8]) -> &[u8]
    ensures words { words_of_line result.now ≡ words_of_line text.now }
    ensures first { IfSome (slice_get result.now 0) (λ byte. is_blank byte ≡ false) }
    ensures length { length result.now ≤ length text.now }
{
    let mut rest = text;
    while let Some((first, after)) = rest.split_first() {
        if !is_blank(*first) {
            return rest;
        }
        rest = after;
    }
    rest
}

/// How many bytes come before the first blank.
fn word_length(text: &[u8]) -> usize
    ensures { result ≡ position_or_len is_blank text.now }
{
    for (at, byte) in text.iter().enumerate() {
        if is_blank(*byte) {
            return at;
        }
    }
    text.len()
}

fn is_blank(byte: u8) -> bool
    ensures { result ≡ is_blank byte }
{
    byte == b' ' || byte == b'\t'
}
