//! The tokens of a text, one behind the other.
ghost use Rattle.std.specs.Prelude.{◌≡◌, [], ◌+◌, ◌≤◌, ◌==◌, not, drop, length, MatchOption};
ghost use Rattle.std.specs.List.{position, position_or_len};
ghost use Rattle.om_model.specs.Tokens.{IsNextToken, rest_tokens};

/// The bytes of a token: from `start` on, before `end`.
#[derive(Clone, Copy)]
pub(crate) struct Span {
    pub(crate) start: usize,
    pub(crate) end: usize,
}

/// The first token that begins at or behind a place.
pub(crate) fn next_token(text: &[u8], from: usize) -> Option<Span>
    requires { from ≤ length text.now }
    ensures { MatchOption result (rest_tokens text.now from ≡ []) (λ t. IsNextToken text.now from t.start t.end) }
{
    let start = from + first_other(&text[from..])?;
    let end = end_of_token(text, start);
    Some(Span { start, end })
}

// The place of the first space behind a place, or the length where there is none.
fn end_of_token(text: &[u8], start: usize) -> usize
    requires { start ≤ length text.now }
    ensures { result ≡ start + position_or_len (λ b. b == 32) (drop start text.now) }
{
    match first_space(&text[start..]) {
        Some(count) => start + count,
        None => text.len(),
    }
}

fn first_space(text: &[u8]) -> Option<usize>
    ensures { result ≡ position (λ b. b == 32) text.now }
{
    text.iter().position(|b| *b == b' ')
}

fn first_other(text: &[u8]) -> Option<usize>
    ensures { result ≡ position (λ b. not (b == 32)) text.now }
{
    text.iter().position(|b| *b != b' ')
}
