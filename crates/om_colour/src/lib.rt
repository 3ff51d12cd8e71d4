//! Colour lines in the limit of many colours: which colours may meet at a vertex, where their lines go
//! there, and how the lines of a diagram are put together from those of its parts.
//!
//! A leg of colour 3 starts a line, one of colour -3 ends one, and one of colour 8 does both. All fields
//! are taken as they enter a vertex, so a line arrives at a vertex through each slot of colour 3 or 8 and
//! leaves it through each slot of colour -3 or 8. The table of patterns ([`pattern`]) has the colours that
//! may meet, and for each the choices of where the lines go.
//!
//! [`Partial`] holds the lines of one side of an edge. [`partial_of_leg`] makes it for a leg, [`join`] makes
//! it for the side that a vertex and the parts at all its slots but one make, and [`close`] gives the lines
//! of a whole diagram, a [`Flow`], from the parts at all slots of one of its vertices.
//!
//! Legs have the numbers 1 to [`MOST_LEGS`] and slots the numbers 1 to 4. Choices count from 0.
#![tactic(auto)]

ghost use Rattle.std.specs.Prelude.{◌≡◌};
ghost use Rattle.om_colour.specs.Lines.{anti_colour, ends_line, starts_line};

mod joining;
pub mod laws;
mod partials;
mod table;
#[cfg(test)]
mod tests;
mod texts;

pub use joining::{close, join};
use om_legs::MOST_LEGS;
pub use partials::partial_of_leg;
pub use table::{ColourRow, pattern};
pub use texts::{Extent, FLOW_BYTES, flow_text, partial_text};

/// The colour of a field as it enters a vertex. The antiparticle has 3 and -3 exchanged.
#[derive(Clone, Copy, PartialEq, Eq, Debug)]
pub enum Colour {
    /// 1: no line.
    One,
    /// 3: starts a line.
    Three,
    /// -3: ends a line.
    AntiThree,
    /// 8: starts a line and ends one.
    Eight,
}

impl Colour {
    /// The colour of the antiparticle: 3 and -3 are exchanged.
    pub fn anti(self) -> Colour
        ensures { result ≡ anti_colour self }
    {
        match self {
            Colour::One => Colour::One,
            Colour::Three => Colour::AntiThree,
            Colour::AntiThree => Colour::Three,
            Colour::Eight => Colour::Eight,
        }
    }

    /// Whether a leg of this colour starts a line.
    pub fn starts_line(self) -> bool
        ensures { result ≡ starts_line self }
    {
        matches!(self, Colour::Three | Colour::Eight)
    }

    /// Whether a leg of this colour ends a line.
    pub fn ends_line(self) -> bool
        ensures { result ≡ ends_line self }
    {
        matches!(self, Colour::AntiThree | Colour::Eight)
    }
}

/// Where a vertex sends the lines that arrive.
#[derive(Clone, Copy, PartialEq, Eq, Debug)]
pub struct Choice {
    /// `to[s - 1]` is the slot through which the line leaves that arrives through slot `s`, or 0 where none
    /// arrives.
    pub to: [u8; 4],
}

/// The colour lines of one side of an edge, which lies below the edge. Ordered by `ends` from leg 1 on, then
/// by `into`.
#[derive(Clone, Copy, PartialEq, Eq, PartialOrd, Ord, Hash, Debug)]
pub struct Partial {
    /// `ends[k - 1]` is the leg where the line that starts at leg `k` ends, [`UPWARDS`] where it leaves upwards, and 0
    /// where none starts.
    pub ends: [u8; ENDS],
    /// The leg where the line that enters from above ends, or 0 where none enters.
    pub into: u8,
}

/// The partial flows behind the slots of a vertex: None where no part stands.
#[derive(Clone, Copy, PartialEq, Eq, Debug)]
pub struct SlotPartials {
    /// Behind slot 1.
    pub first: Option<Partial>,
    /// Behind slot 2.
    pub second: Option<Partial>,
    /// Behind slot 3.
    pub third: Option<Partial>,
    /// Behind slot 4.
    pub fourth: Option<Partial>,
}

/// The colour lines of a diagram. Ordered by `ends` from leg 1 on.
#[derive(Clone, Copy, PartialEq, Eq, PartialOrd, Ord, Hash, Debug)]
pub struct Flow {
    /// `ends[k - 1]` is the leg where the line that starts at leg `k` ends, or 0 where none starts.
    pub ends: [u8; ENDS],
}

/// The end of a line that leaves its side upwards, in the place of a leg.
pub const UPWARDS: u8 = MOST_LEGS + 1;

/// How many legs a flow has places for.
pub const ENDS: usize = MOST_LEGS as usize;
