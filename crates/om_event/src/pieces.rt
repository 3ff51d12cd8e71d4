//! The pieces of a line between single spaces.
ghost use Rattle.std.specs.Prelude.{◌≡◌, ◌+◌, length};
ghost use Rattle.std.specs.List.{prefix_len, filter};
ghost use Rattle.om_event.specs.Pieces.{behind_piece, front_piece, in_piece, is_space};

// How many bytes stand before the first space, or the end.
fn piece_len(text: &[u8]) -> usize
    ensures { result ≡ prefix_len in_piece text.now }
{
    text.iter().take_while(|b| **b != b' ').count()
}

/// The first piece, and what follows the space behind it.
pub(crate) fn first_piece(text: &[u8]) -> (&[u8], &[u8])
    ensures piece { result.0.now ≡ front_piece text.now }
    ensures rest { result.1.now ≡ behind_piece text.now }
{
    let len = piece_len(text);
    if len < text.len() {
        (&text[..len], &text[len + 1..])
    } else {
        (text, &[])
    }
}

/// How many spaces there are.
pub(crate) fn count_spaces(text: &[u8]) -> usize
    ensures { result ≡ length (filter is_space text.now) }
{
    text.iter().filter(|b| **b == b' ').count()
}
