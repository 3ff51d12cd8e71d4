//! What is wrong with a model file.
ghost use Rattle.std.specs.Prelude.{◌≡◌};
ghost use Rattle.om_modelfile.specs.Faults.{at_row};

use om_model::{RuleFault, Table};
use om_ring::NumeralFault;

/// Why a file is no model: the first fault in the order of the steps of reading, with the table and the row where it
/// stands. Rows count from 1; the top has the one row 0.
#[derive(Clone, Copy, Debug, Drop, PartialEq, Eq)]
pub enum ModelFault {
    /// The bytes aren't UTF-8, or no TOML document.
    NotToml,
    /// A required key is absent.
    MissingKey(Table, u32),
    /// The row is no table, or a value isn't of the kind that its key has.
    WrongKind(Table, u32),
    /// A key isn't one of the row's.
    UnknownKey(Table, u32),
    /// A text that has to be a numeral is none, for this reason.
    BadNumber(Table, u32, NumeralFault),
    /// A text that has to be a name is none.
    BadName(Table, u32),
    /// A word is no spin or structure, a field no particle's name or antiname, or a term of a product no parameter's name.
    UnknownName(Table, u32),
    /// An array has more rows, a vertex more fields or factors, a product more terms, or an order is another than there may
    /// be.
    TooMuch(Table, u32),
    /// The model breaks a rule.
    Rule(RuleFault),
    /// Want of memory.
    Memory,
}

/// A fault of a row, before it is known where the row stands.
#[derive(Clone, Copy)]
pub(crate) enum RowFault {
    MissingKey,
    WrongKind,
    UnknownKey,
    BadNumber(NumeralFault),
    BadName,
    UnknownName,
    TooMuch,
    Memory,
}

impl RowFault {
    /// The fault with its table and its row.
    pub(crate) fn at_row(self, table: Table, row: u32) -> ModelFault
        ensures { result ≡ at_row table row self }
    {
        match self {
            RowFault::MissingKey => ModelFault::MissingKey(table, row),
            RowFault::WrongKind => ModelFault::WrongKind(table, row),
            RowFault::UnknownKey => ModelFault::UnknownKey(table, row),
            RowFault::BadNumber(fault) => ModelFault::BadNumber(table, row, fault),
            RowFault::BadName => ModelFault::BadName(table, row),
            RowFault::UnknownName => ModelFault::UnknownName(table, row),
            RowFault::TooMuch => ModelFault::TooMuch(table, row),
            RowFault::Memory => ModelFault::Memory,
        }
    }
}
