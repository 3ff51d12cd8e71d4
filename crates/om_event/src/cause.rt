//! Why a line isn't that of a leg.

/// Why a line of an event is bad. The causes are tried in this order.
#[derive(Clone, Copy, Debug, Drop, PartialEq, Eq)]
pub enum Cause {
    /// More than [`MOST_LINE_BYTES`](crate::MOST_LINE_BYTES) bytes stand before the line feed. It stands as soon as one byte
    /// more than that was read and none of them is a line feed.
    TooLong,
    /// The pieces between single spaces aren't as many as the leg asks: its number, four numerals for the momentum, and one
    /// numeral for a scalar's wave or four for any other.
    Count,
    /// The first piece isn't the decimal of the number of the leg.
    LegNumber,
    /// The first faulty numeral from the left is none.
    BadNumeral,
    /// The first faulty numeral from the left has a denominator without inverse.
    NoInverse,
    /// The input ends inside the line, or before a line of an event that has begun.
    Cut,
}
