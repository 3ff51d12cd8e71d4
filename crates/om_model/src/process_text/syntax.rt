//! Where the tokens of the text of a process may stand.
ghost use Rattle.std.specs.Prelude.{◌≡◌, length};
ghost use Rattle.om_model.specs.Name.{is_name as is_name_of};
ghost use Rattle.om_model.specs.Tokens.{tokens_of};
ghost use Rattle.om_model.specs.ProcessText.{after_token as after_token_of, fault_at_end as fault_at_end_of, fault_from};

use super::tokens::next_token;
use crate::Name;
use crate::leg_set_text::is_set;

pub(crate) const ARROW: &[u8] = b"->";

const SLASH: &[u8] = b"/";

/// What was read: nothing; a name or more; the arrow behind names; the arrow and a name or more behind it; a slash behind that; a
/// set behind a slash.
#[derive(Clone, Copy)]
pub(crate) enum Stage {
    Start,
    Incoming,
    Turned,
    Outgoing,
    Slashed,
    Named,
}

/// The place of the first token that may not stand where it stands, or the length where something is missing.
pub(crate) fn syntax_fault(text: &[u8]) -> Option<usize>
    ensures { result ≡ fault_from (length text.now) Stage.Start (tokens_of text.now) }
{
    let mut stage = Stage::Start;
    let mut at = 0;
    while let Some(token) = next_token(text, at) {
        match after_token(stage, &text[token.start..token.end]) {
            Some(next) => stage = next,
            None => return Some(token.start),
        }
        at = token.end;
    }
    fault_at_end(stage, text.len())
}

fn fault_at_end(stage: Stage, end: usize) -> Option<usize>
    ensures { result ≡ fault_at_end_of end stage }
{
    match stage {
        Stage::Outgoing | Stage::Named => None,
        _ => Some(end),
    }
}

// What a token leads to, if it may stand there.
fn after_token(stage: Stage, token: &[u8]) -> Option<Stage>
    ensures { result ≡ after_token_of stage token.now }
{
    match stage {
        Stage::Start | Stage::Incoming if is_name(token) => Some(Stage::Incoming),
        Stage::Turned | Stage::Outgoing if is_name(token) => Some(Stage::Outgoing),
        Stage::Incoming if token == ARROW => Some(Stage::Turned),
        Stage::Outgoing | Stage::Named if token == SLASH => Some(Stage::Slashed),
        Stage::Slashed if is_set(token) => Some(Stage::Named),
        _ => None,
    }
}

pub(crate) fn is_name(token: &[u8]) -> bool
    ensures { result ≡ is_name_of token.now }
{
    Name::read(token).is_some()
}
