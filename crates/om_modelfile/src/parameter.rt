//! Rows of the parameters.
ghost use Rattle.toml.specs.View.{view, table_view};
ghost use Rattle.om_modelfile.specs.Faults.{Gives};
ghost use Rattle.om_modelfile.specs.Parameters.{parameter_from, parameter_of, parameter_texts};
ghost use Rattle.om_modelfile.specs.Views.{parameter_texts_view};

use crate::fault::RowFault;
use crate::keys::{has_all, knows_all, text_at};
use crate::texts::{read_name, read_number};
use om_model::Name;
use om_ring::Numeral;
use toml::{Table, Value};

const KEYS: [&str; 2] = ["name", "value"];

/// A name that stands for a numeral in products.
#[derive(Drop)]
pub(crate) struct Parameter {
    pub(crate) name: Name,
    pub(crate) value: Numeral,
}

#[derive(Drop)]
struct ParameterTexts<'a> {
    name: &'a str,
    value: &'a str,
}

/// The parameter that a row says.
#[tactic(auto, unfolding(crate::specs::Parameters::parameter_of))]
pub(crate) fn read_parameter(row: &Value) -> Result<Parameter, RowFault>
    ensures { Gives (λ parameter. parameter) result (parameter_of (view row.now)) }
{
    let Some(table) = row.as_table() else {
        return Err(RowFault::WrongKind);
    };
    let texts = read_texts(table)?;
    parameter_from(&texts)
}

#[tactic(auto, unfolding(crate::specs::Parameters::parameter_texts))]
fn read_texts(table: &Table) -> Result<ParameterTexts<'_>, RowFault>
    ensures { Gives parameter_texts_view result (parameter_texts (table_view table.now)) }
{
    if !knows_all(table, &KEYS) {
        return Err(RowFault::UnknownKey);
    }
    if !has_all(table, &KEYS) {
        return Err(RowFault::MissingKey);
    }
    Ok(ParameterTexts {
        name: text_at(table, "name")?,
        value: text_at(table, "value")?,
    })
}

#[tactic(auto, unfolding(crate::specs::Parameters::parameter_from))]
fn parameter_from(texts: &ParameterTexts) -> Result<Parameter, RowFault>
    ensures { Gives (λ parameter. parameter) result (parameter_from (parameter_texts_view texts.now)) }
{
    Ok(Parameter {
        name: read_name(texts.name)?,
        value: read_number(texts.value)?,
    })
}
