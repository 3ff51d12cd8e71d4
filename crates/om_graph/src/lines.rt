//! The lines of the sides that close to a flow, as words of bytes: no two lines start at one leg, so the ends of all lines are the sum of
//! those of each side.
ghost use Rattle.std.specs.Prelude.{◌≡◌, ◌+◌, ◌^◌, ◌<◌, map, slice_index, IsTrue, Some};
ghost use Rattle.std.specs.Int.{to_le_bytes, w64};
ghost use Rattle.om_colour.specs.Partials.{Fits, closed as closed_of, no_hole};
ghost use Rattle.om_colour.specs.declared.TheConstants.{UPWARDS};
ghost use Rattle.om_graph.specs.Fillings.{key_at};
ghost use Rattle.om_graph.specs.Words.{keys_behind, kept as kept_of, lines_behind, lines_in, lines_of_key, merged as merged_of, partials_behind, sent as sent_of, through as through_of, twelve, word_in};

use crate::Key;
use crate::parts::{Part, Parts};
use om_colour::{Choice, ENDS, Flow, Partial, UPWARDS};

/// The ends of the lines from eight legs, a byte each: those that end within their side, and a 1 for each that leaves it upwards.
#[derive(Clone, Copy, Debug)]
pub(crate) struct Word {
    pub(crate) within: u64,
    pub(crate) upwards: u64,
}

/// The lines of a side: from legs 1 to 8, from legs 9 to 12, and where a line ends that enters.
#[derive(Clone, Copy, Debug)]
pub(crate) struct Lines {
    pub(crate) low: Word,
    pub(crate) high: Word,
    pub(crate) into: u64,
}

const NO_WORD: Word = Word {
    within: 0,
    upwards: 0,
};

const NO_LINES: Lines = Lines {
    low: NO_WORD,
    high: NO_WORD,
    into: 0,
};

/// The lines of a partial flow.
pub(crate) fn lines_of(partial: &Partial) -> Lines
    ensures { result ≡ lines_in (Some partial.now) }
{
    let ends = &partial.ends;
    Lines {
        low: word_of([
            ends[0], ends[1], ends[2], ends[3], ends[4], ends[5], ends[6], ends[7],
        ]),
        high: word_of([ends[8], ends[9], ends[10], ends[11], 0, 0, 0, 0]),
        into: u64::from(partial.into),
    }
}

fn word_of(ends: [u8; 8]) -> Word
    ensures { result ≡ word_in (slice_index ends) }
{
    Word {
        within: u64::from_le_bytes([
            kept(ends[0]),
            kept(ends[1]),
            kept(ends[2]),
            kept(ends[3]),
            kept(ends[4]),
            kept(ends[5]),
            kept(ends[6]),
            kept(ends[7]),
        ]),
        upwards: u64::from_le_bytes([
            sent(ends[0]),
            sent(ends[1]),
            sent(ends[2]),
            sent(ends[3]),
            sent(ends[4]),
            sent(ends[5]),
            sent(ends[6]),
            sent(ends[7]),
        ]),
    }
}

// The end of a line that stays within its side, or 0.
fn kept(end: u8) -> u8
    ensures { result ≡ kept_of end }
{
    if end == UPWARDS { 0 } else { end }
}

// 1 for a line that leaves it upwards.
fn sent(end: u8) -> u8
    ensures { result ≡ sent_of end }
{
    if end == UPWARDS { 1 } else { 0 }
}

/// The lines at the slots of a vertex that parts fill, by the lines of the branches.
pub(crate) fn lines_at(parts: &Parts, keys: &[Key], lines: &[Lines]) -> [Lines; 4]
    requires { lines.now ≡ map lines_of_key keys.now }
    ensures { result ≡ map lines_behind (keys_behind parts.now keys.now) }
{
    match parts.all() {
        [] => [NO_LINES; 4],
        [a] => [line_at(a, keys, lines), NO_LINES, NO_LINES, NO_LINES],
        [a, b] => [
            line_at(a, keys, lines),
            line_at(b, keys, lines),
            NO_LINES,
            NO_LINES,
        ],
        [a, b, c] => [
            line_at(a, keys, lines),
            line_at(b, keys, lines),
            line_at(c, keys, lines),
            NO_LINES,
        ],
        [a, b, c, d] => [
            line_at(a, keys, lines),
            line_at(b, keys, lines),
            line_at(c, keys, lines),
            line_at(d, keys, lines),
        ],
        _ => unreachable!(),
    }
}

// The lines of a part that is one of the branches.
fn line_at(part: &Part, keys: &[Key], lines: &[Lines]) -> Lines
    requires { lines.now ≡ map lines_of_key keys.now }
    ensures { result ≡ lines_behind (key_at keys.now part.now) }
{
    match part.branch {
        Some(number) if (number as usize) < keys.len() => lines[number as usize],
        _ => NO_LINES,
    }
}

/// The flow that the lines at all slots make, by a choice.
pub(crate) fn closed(parts: &Parts, keys: &[Key], slots: &[Lines; 4], choice: &Choice) -> Flow
    requires lines { slots.now ≡ map lines_behind (keys_behind parts.now keys.now) }
    requires fit { Fits (partials_behind parts.now keys.now) choice.now no_hole }
    ensures { result ≡ closed_of (partials_behind parts.now keys.now) choice.now }
{
    let _parts = parts;
    let _keys = keys;
    let [a, b, c, d] = slots;
    let into = [0, a.into, b.into, c.into, d.into];
    let ends = [
        into[choice.to[0] as usize],
        into[choice.to[1] as usize],
        into[choice.to[2] as usize],
        into[choice.to[3] as usize],
    ];
    let low = merged(a.low, b.low, c.low, d.low, ends);
    let high = merged(a.high, b.high, c.high, d.high, ends);
    flow_of(low, high)
}

// The ends in four words.
fn merged(a: Word, b: Word, c: Word, d: Word, ends: [u64; 4]) -> u64
    requires { merged_of a b c d (slice_index ends 0) (slice_index ends 1) (slice_index ends 2) (slice_index ends 3) < 2 ^ 64 }
    ensures { result ≡ merged_of a b c d (slice_index ends 0) (slice_index ends 1) (slice_index ends 2) (slice_index ends 3) }
{
    through(a, ends[0]) + (through(b, ends[1]) + (through(c, ends[2]) + through(d, ends[3])))
}

// The ends in a word, where the lines that leave upwards end at this.
fn through(word: Word, end: u64) -> u64
    requires { through_of word end < 2 ^ 64 }
    ensures { result ≡ through_of word end }
{
    word.within + word.upwards * end
}

fn flow_of(low: u64, high: u64) -> Flow
    ensures { result ≡ record { ends = twelve (to_le_bytes w64 low) (to_le_bytes w64 high) } }
{
    let first = low.to_le_bytes();
    let last = high.to_le_bytes();
    Flow {
        ends: [
            first[0], first[1], first[2], first[3], first[4], first[5], first[6], first[7],
            last[0], last[1], last[2], last[3],
        ],
    }
}

/// Ends as words: those of lines from legs 1 to 8, and from legs 9 to 12.
pub(crate) fn words_of(ends: [u8; ENDS]) -> (u64, u64)
    ensures { ends ≡ twelve (to_le_bytes w64 result.0) (to_le_bytes w64 result.1) }
{
    let low = u64::from_le_bytes([
        ends[0], ends[1], ends[2], ends[3], ends[4], ends[5], ends[6], ends[7],
    ]);
    let high = u64::from_le_bytes([ends[8], ends[9], ends[10], ends[11], 0, 0, 0, 0]);
    (low, high)
}

/// Whether two flows are the same, by their words.
pub(crate) fn are_same(a: Flow, b: Flow) -> bool
    ensures { IsTrue result → a ≡ b }
{
    let (a_low, a_high) = words_of(a.ends);
    let (b_low, b_high) = words_of(b.ends);
    a_low == b_low && a_high == b_high
}
