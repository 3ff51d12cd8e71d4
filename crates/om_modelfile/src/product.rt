//! Products of numerals and parameters.
ghost use Rattle.std.specs.Prelude.{◌≡◌, map, slice_index};
ghost use Rattle.om_model.specs.Name.{is_letter};
ghost use Rattle.om_modelfile.specs.Each.{each_from};
ghost use Rattle.om_modelfile.specs.Faults.{Gives};
ghost use Rattle.om_modelfile.specs.Products.{product_of, term_of, terms_in, value_in};

use crate::fault::RowFault;
use crate::parameter::Parameter;
use crate::texts::read_number;
use om_model::Product;
use om_model::limits::MOST_NUMERALS;
use om_ring::{List, Numeral};
use std::alloc::Global;

/// The product that a text says: numerals and names of parameters, with stars between them.
#[tactic(auto, unfolding(crate::specs::Products::product_of))]
pub(crate) fn read_product(
    alloc: Global,
    parameters: &[Parameter],
    text: &str,
) -> Result<Product, RowFault>
    ensures { Gives (λ product. product) result (product_of parameters.now text.now) }
{
    let terms = terms_in(alloc, text)?;
    if terms.len() > MOST_NUMERALS {
        return Err(RowFault::TooMuch);
    }
    read_terms(alloc, parameters, terms.as_slice())
}

fn terms_in(alloc: Global, text: &str) -> Result<Vec<&str>, RowFault>
    ensures { Gives (λ terms. map (λ s. s.now) terms.items) result (Ok (terms_in text.now)) }
{
    match text.split('*').collect(alloc) {
        Ok(terms) => Ok(terms),
        Err(_) => Err(RowFault::Memory),
    }
}

fn read_terms(alloc: Global, parameters: &[Parameter], terms: &[&str]) -> Result<Product, RowFault>
    ensures { Gives (λ product. product) result (each_from (λ _ term. term_of parameters.now term) 0 (map (λ s. s.now) terms.now)) }
{
    let mut product = List::new(alloc);
    for term in terms {
        match term_of(parameters, term) {
            Ok(factor) => match product.push(factor) {
                Ok(()) => {}
                Err(_) => return Err(RowFault::Memory),
            },
            Err(fault) => return Err(fault),
        }
    }
    Ok(product)
}

fn term_of(parameters: &[Parameter], text: &str) -> Result<Numeral, RowFault>
    ensures { Gives (λ x. x) result (term_of parameters.now text.now) }
{
    if !begins_with_letter(text.as_bytes()) {
        return read_number(text);
    }
    match value_in(parameters, text.as_bytes()) {
        Some(value) => Ok(value),
        None => Err(RowFault::UnknownName),
    }
}

fn begins_with_letter(text: &[u8]) -> bool
    ensures { result ≡ is_letter (slice_index text.now 0) }
{
    match text.first() {
        Some(first) => first.is_ascii_alphabetic(),
        None => false,
    }
}

// The numeral of the first parameter with this name.
fn value_in(parameters: &[Parameter], name: &[u8]) -> Option<Numeral>
    ensures { result ≡ value_in parameters.now name.now }
{
    let parameter = parameters
        .iter()
        .find(|parameter| parameter.name.bytes() == name)?;
    Some(parameter.value)
}
