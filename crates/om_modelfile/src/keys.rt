//! The keys of a table, and the values that stand at them.
ghost use Rattle.std.specs.Prelude.{◌≡◌, [], is_some, map, option_map, string_bytes};
ghost use Rattle.std.specs.BTreeMap.{keys};
ghost use Rattle.std.specs.List.{list_any, list_all};
ghost use Rattle.std.specs.Str.{bytes_eq};
ghost use Rattle.toml.specs.Data.{get_member};
ghost use Rattle.toml.specs.View.{view, table_view};
ghost use Rattle.om_modelfile.specs.Faults.{Gives};
ghost use Rattle.om_modelfile.specs.Keys.{has_all as has_all_of, knows_all as knows_all_of, number_or as number_or_of, text_at as text_at_of, text_of as text_of_of, text_or as text_or_of, texts_of as texts_of_of, values_at as values_at_of, values_of as values_of_of, values_or as values_or_of};

use crate::fault::RowFault;
use std::alloc::Global;
use toml::{Table, Value};

/// Whether each key of the table is one of these.
#[tactic(auto, using(crate::proofs::KeysOf::knows_keys))]
pub(crate) fn knows_all(table: &Table, keys: &[&str]) -> bool
    ensures { result ≡ knows_all_of (map (λ k. k.now) keys.now) (table_view table.now) }
{
    are_all_among(table, keys)
}

fn are_all_among(table: &Table, known: &[&str]) -> bool
    ensures { result ≡ list_all (λ k. list_any (λ known. bytes_eq (string_bytes k) known.now) known.now) (keys table.now) }
{
    table.keys().all(|key| is_among(known, key.as_str()))
}

fn is_among(known: &[&str], key: &str) -> bool
    ensures { result ≡ list_any (λ known. bytes_eq key.now known.now) known.now }
{
    known.iter().any(|known| key == *known)
}

/// Whether each of these keys is in the table.
#[tactic(auto, using(crate::proofs::KeysOf::has_keys))]
pub(crate) fn has_all(table: &Table, keys: &[&str]) -> bool
    ensures { result ≡ has_all_of (map (λ k. k.now) keys.now) (table_view table.now) }
{
    are_all_in(table, keys)
}

fn are_all_in(table: &Table, keys: &[&str]) -> bool
    ensures { result ≡ list_all (λ k. is_some (get_member k.now (table_view table.now))) keys.now }
{
    keys.iter().all(|key| value_at(table, key).is_some())
}

fn value_at<'a>(table: &'a Table, key: &str) -> Option<&'a Value>
    ensures { option_map (λ v. view v.now) result ≡ get_member key.now (table_view table.now) }
{
    table.get(key)
}

fn text_of(value: &Value) -> Result<&str, RowFault>
    ensures { Gives (λ s. s.now) result (text_of_of (view value.now)) }
{
    match value.as_str() {
        Some(text) => Ok(text),
        None => Err(RowFault::WrongKind),
    }
}

#[tactic(auto, using(crate::proofs::KeysOf::keys_of_tables))]
fn values_of(value: &Value) -> Result<&[Value], RowFault>
    ensures { Gives (λ vs. map view vs.now) result (values_of_of (view value.now)) }
{
    match value.as_array() {
        Some(values) => Ok(values.as_slice()),
        None => Err(RowFault::WrongKind),
    }
}

/// The text at a key.
pub(crate) fn text_at<'a>(table: &'a Table, key: &str) -> Result<&'a str, RowFault>
    ensures { Gives (λ s. s.now) result (text_at_of key.now (table_view table.now)) }
{
    match value_at(table, key) {
        Some(value) => text_of(value),
        None => Err(RowFault::MissingKey),
    }
}

/// The text at a key, or this one where the key is absent.
pub(crate) fn text_or<'a>(absent: &'a str, table: &'a Table, key: &str) -> Result<&'a str, RowFault>
    ensures { Gives (λ s. s.now) result (text_or_of absent.now key.now (table_view table.now)) }
{
    match value_at(table, key) {
        Some(value) => text_of(value),
        None => Ok(absent),
    }
}

/// The number at a key, or this one where the key is absent.
pub(crate) fn number_or(absent: i64, table: &Table, key: &str) -> Result<i64, RowFault>
    ensures { Gives (λ z. z) result (number_or_of absent key.now (table_view table.now)) }
{
    let Some(value) = value_at(table, key) else {
        return Ok(absent);
    };
    match value.as_integer() {
        Some(number) => Ok(number),
        None => Err(RowFault::WrongKind),
    }
}

/// The values of the array at a key.
pub(crate) fn values_at<'a>(table: &'a Table, key: &str) -> Result<&'a [Value], RowFault>
    ensures { Gives (λ vs. map view vs.now) result (values_at_of key.now (table_view table.now)) }
{
    match value_at(table, key) {
        Some(value) => values_of(value),
        None => Err(RowFault::MissingKey),
    }
}

/// The values of the array at a key, or none where the key is absent.
pub(crate) fn values_or_none<'a>(table: &'a Table, key: &str) -> Result<&'a [Value], RowFault>
    ensures { Gives (λ vs. map view vs.now) result (values_or_of [] key.now (table_view table.now)) }
{
    match value_at(table, key) {
        Some(value) => values_of(value),
        None => Ok(&[]),
    }
}

/// The texts that values are.
pub(crate) fn texts_of(alloc: Global, values: &[Value]) -> Result<Vec<&str>, RowFault>
    ensures { Gives (λ texts. map (λ s. s.now) texts.items) result (texts_of_of (map view values.now)) }
{
    let mut texts = Vec::new(alloc);
    for value in values {
        match text_of(value) {
            Ok(text) => match texts.push(text) {
                Ok(()) => {}
                Err(_) => return Err(RowFault::Memory),
            },
            Err(fault) => return Err(fault),
        }
    }
    Ok(texts)
}
