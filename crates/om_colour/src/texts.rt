//! The texts of flows and partial flows.
ghost use Rattle.std.specs.Prelude.{◌≡◌, ◌+◌, ◌-◌, ◌*◌, ◌/◌, ◌≤◌, ◌<◌, ◌++◌, length, decimal, []};
ghost use Rattle.om_colour.specs.Texts.{flow_bytes, line_item, line_items, one_more, partial_bytes, with_commas};
ghost use Rattle.om_ring.specs.declared.line.TheConstants.{LINE_BYTES};
ghost use Rattle.om_colour.specs.declared.texts.TheConstants.{FLOW_BYTES, ITEM_BYTES, LEG_BYTES, LINES_BYTES};
ghost use Rattle.om_legs.specs.declared.leg_set.TheConstants.{MOST_LEGS};

use crate::{ENDS, Flow, Partial, UPWARDS};
use om_ring::Line;

// The most bytes of the number of a leg: a byte has at most three digits.
const LEG_BYTES: usize = 3;

// The most bytes of the item of a line behind a comma: a start of two digits, `>` and any end.
const ITEM_BYTES: usize = 1 + 2 + 1 + LEG_BYTES;

// The most bytes of the items of all lines: the starts 1 to 9 have a digit less.
const LINES_BYTES: usize = ENDS * ITEM_BYTES - 9;

/// The most bytes of the text of a flow or a partial flow: the items of all lines, and behind them `,>` and a leg.
pub const FLOW_BYTES: usize = LINES_BYTES + 2 + LEG_BYTES;

/// What a text shows the lines of.
#[derive(Clone, Copy)]
pub enum Extent {
    /// All of a diagram.
    Diagram,
    /// One side of an edge.
    Side,
}

/// Appends the text of a flow: an item `s>t` for each line from leg s to leg t, by rising starts, with commas
/// between, and `-` where there is no line. Wants [`FLOW_BYTES`] free bytes, which suffice for any ends.
pub fn flow_text(flow: &Flow, to: &mut Line)
    requires { length to.old + FLOW_BYTES ≤ LINE_BYTES }
    ensures text { to.new ≡ to.old ++ flow_bytes flow.now }
    ensures short { length to.new ≤ length to.old + FLOW_BYTES }
{
    let count = push_lines(to, Extent::Diagram, &flow.ends);
    if count == 0 {
        to.push(b"-");
    }
}

/// Appends the text of a partial flow: as for a flow, with `s>` for a line that leaves upwards and last `>t` for
/// the line that enters and ends at leg t. Wants [`FLOW_BYTES`] free bytes, which suffice for any ends.
pub fn partial_text(part: &Partial, to: &mut Line)
    requires { length to.old + FLOW_BYTES ≤ LINE_BYTES }
    ensures text { to.new ≡ to.old ++ partial_bytes part.now }
    ensures short { length to.new ≤ length to.old + FLOW_BYTES }
{
    let count = push_lines(to, Extent::Side, &part.ends);
    if part.into != 0 {
        push_comma(to, count);
        to.push(b">");
        push_leg(to, part.into);
    } else if count == 0 {
        to.push(b"-");
    }
}

// Appends the items of the lines, and says how many there are.
fn push_lines(to: &mut Line, extent: Extent, ends: &[u8; ENDS]) -> usize
    requires { length to.old + LINES_BYTES ≤ LINE_BYTES }
    ensures text { to.new ≡ to.old ++ with_commas (line_items extent 1 ends.now) }
    ensures count { result ≡ length (line_items extent 1 ends.now) }
    ensures short { length to.new ≤ length to.old + LINES_BYTES }
{
    let mut count = 0;
    for (k, end) in ends.iter().enumerate() {
        if *end != 0 {
            push_item(to, count, extent, k as u8 + 1, *end);
            count += 1;
        }
    }
    count
}

// Appends the item of a line, behind a comma where it isn't the first.
fn push_item(to: &mut Line, count: usize, extent: Extent, start: u8, end: u8)
    requires start { start ≤ MOST_LEGS }
    requires free { length to.old + ITEM_BYTES ≤ LINE_BYTES }
    ensures text { to.new ≡ to.old ++ one_more count (line_item extent start end) }
    ensures short { length to.new ≤ length to.old + (ITEM_BYTES - 1) + start / 10 }
{
    push_comma(to, count);
    push_leg(to, start);
    to.push(b">");
    match extent {
        Extent::Side if end == UPWARDS => {},
        _ => push_leg(to, end),
    }
}

fn push_comma(to: &mut Line, count: usize)
    requires { length to.old + 1 ≤ LINE_BYTES }
    ensures text { to.new ≡ to.old ++ one_more count [] }
    ensures short { length to.new ≤ length to.old + 1 }
{
    if count > 0 {
        to.push(b",");
    }
}

// Appends the number of a leg.
#[tactic(auto, using(std::proofs::lemmas::Fmt::decimal_digit, crate::proofs::LegNumbers::decimal_two, crate::proofs::LegNumbers::decimal_three))]
fn push_leg(to: &mut Line, leg: u8)
    requires { length to.old + LEG_BYTES ≤ LINE_BYTES }
    ensures text { to.new ≡ to.old ++ decimal leg }
    ensures short { length to.new ≤ length to.old + LEG_BYTES }
    ensures one { leg < 10 → length to.new ≤ length to.old + 1 }
    ensures two { leg < 100 → length to.new ≤ length to.old + 2 }
{
    if leg < 10 {
        to.push(&[b'0' + leg]);
    } else if leg < 100 {
        to.push(&[b'0' + leg / 10, b'0' + leg % 10]);
    } else {
        to.push(&[b'0' + leg / 100, b'0' + leg / 10 % 10, b'0' + leg % 10]);
    }
}
