//! Files with each fault, and with each two faults of neighbouring steps, of which the earlier one is told: the top and the
//! parameters.
mod files;
mod particles;
mod vertices;

use crate::ModelFault::{
    self, BadName, BadNumber, MissingKey, NotToml, Rule, UnknownKey, WrongKind,
};
use crate::read_model;
use om_model::Table::{Parameter, Particle, Top, Vertex};
use om_model::{Model, ModelRule, RuleFault};
use om_ring::NumeralFault::{BadByte, Empty, TooBig, ZeroDen};
use om_ring::{Book, Steps, Zp};
use std::alloc::Global;
use std::test::Fail;

// A text, and its first fault.
type Case = (&'static str, Option<ModelFault>);

fn model_of(alloc: Global, text: &[u8]) -> Result<Model, ModelFault> {
    let mut steps = Steps::new(Book);
    read_model(alloc, &Zp, text, &mut steps)
}

// The first text that, put between two others, has another first fault than the one beside it.
fn first_wrong(
    alloc: Global,
    before: &str,
    after: &str,
    cases: &[Case],
) -> Result<Option<&'static str>, Fail> {
    for (row, fault) in cases {
        let text = format!(in alloc; "{before}{row}{after}")?;
        if model_of(alloc, text.as_bytes()).err() != *fault {
            return Ok(Some(*row));
        }
    }
    Ok(None)
}

const REPEATED_NAME: Option<ModelFault> = Some(Rule(RuleFault {
    rule: ModelRule::RepeatedName,
    table: Particle,
    row: 2,
}));

const BAD_PATTERN: Option<ModelFault> = Some(Rule(RuleFault {
    rule: ModelRule::BadPattern,
    table: Vertex,
    row: 2,
}));

const TOPS: [Case; 21] = [
    ("x = ", Some(NotToml)),
    ("model = 'm'\nmodel = 'm'", Some(NotToml)),
    ("", Some(MissingKey(Top, 0))),
    ("extra = 1", Some(UnknownKey(Top, 0))),
    ("model = 1\nparticle = []", Some(MissingKey(Top, 0))),
    ("model = 'm'\nvertex = []", Some(MissingKey(Top, 0))),
    ("particle = []\nvertex = []", Some(MissingKey(Top, 0))),
    (
        "model = 1\nparticle = []\nvertex = []",
        Some(WrongKind(Top, 0)),
    ),
    (
        "model = '1'\nparticle = {}\nvertex = []",
        Some(WrongKind(Top, 0)),
    ),
    (
        "model = 'm'\nvertex = []\n[particle]",
        Some(WrongKind(Top, 0)),
    ),
    (
        "model = 'm'\nvertex = 1\nparticle = []",
        Some(WrongKind(Top, 0)),
    ),
    (
        "model = 'm'\nvertex = []\nparticle = []\nparameter = 1",
        Some(WrongKind(Top, 0)),
    ),
    (
        "model = '1'\nvertex = []\nparticle = [{}]",
        Some(BadName(Top, 0)),
    ),
    (
        "model = ''\nvertex = []\nparticle = []",
        Some(BadName(Top, 0)),
    ),
    (
        "model = 'abcdefghijklmnop'\nvertex = []\nparticle = []",
        Some(BadName(Top, 0)),
    ),
    (
        "model = 'abcdefghijklmno'\nvertex = []\nparticle = []",
        None,
    ),
    (
        "model = 'm'\nvertex = [{}]\nparticle = [{}]\nparameter = [{}]",
        Some(MissingKey(Parameter, 1)),
    ),
    (
        "model = 'm'\nvertex = [{}]\nparticle = [{}]",
        Some(MissingKey(Particle, 1)),
    ),
    (
        "model = 'm'\nvertex = [{}]\nparticle = []",
        Some(MissingKey(Vertex, 1)),
    ),
    (
        "model = 'm'\nvertex = []\n[[particle]]\nname = 'a'\nanti = 'a'\nspin = 'scalar'\n[[particle]]\nname = 'a'\nanti = 'a'\nspin = 'scalar'",
        REPEATED_NAME,
    ),
    (
        "model = 'm'\nvertex = [{}]\n[[particle]]\nname = 'a'\nanti = 'a'\nspin = 'scalar'\n[[particle]]\nname = 'a'\nanti = 'a'\nspin = 'scalar'",
        Some(MissingKey(Vertex, 1)),
    ),
];

#[test]
fn tops(rt: HostRuntime) -> Result<(), Fail> {
    assert_eq!(rt; first_wrong(rt.alloc(), "", "", &TOPS)?, None);
    assert_eq!(rt;
        model_of(rt.alloc(), b"model = '\xff'").err(),
        Some(NotToml)
    );
    Ok(())
}

const PARAMETERS: [Case; 15] = [
    ("1", Some(WrongKind(Parameter, 2))),
    ("{x = 1}", Some(UnknownKey(Parameter, 2))),
    ("{value = 1}", Some(MissingKey(Parameter, 2))),
    ("{name = '1'}", Some(MissingKey(Parameter, 2))),
    ("{name = 1, value = '1'}", Some(WrongKind(Parameter, 2))),
    ("{name = '1', value = 1}", Some(WrongKind(Parameter, 2))),
    ("{name = '1', value = 'a'}", Some(BadName(Parameter, 2))),
    (
        "{name = 'b', value = 'a'}",
        Some(BadNumber(Parameter, 2, BadByte(0))),
    ),
    (
        "{name = 'b', value = '1*2'}",
        Some(BadNumber(Parameter, 2, BadByte(1))),
    ),
    (
        "{name = 'b', value = ''}",
        Some(BadNumber(Parameter, 2, Empty)),
    ),
    (
        "{name = 'b', value = '1/0'}",
        Some(BadNumber(Parameter, 2, ZeroDen)),
    ),
    (
        "{name = 'b', value = '18446744073709551616'}",
        Some(BadNumber(Parameter, 2, TooBig)),
    ),
    ("{name = 'a', value = '1'}", None),
    ("{name = 'abcdefghijklmno', value = '-2/3i'}", None),
    (
        "{name = 'abcdefghijklmnop', value = '1'}",
        Some(BadName(Parameter, 2)),
    ),
];

#[test]
fn parameters(rt: HostRuntime) -> Result<(), Fail> {
    let before =
        "model = 'm'\nparticle = []\nvertex = []\nparameter = [{name = 'a', value = '1'}, ";
    assert_eq!(rt; first_wrong(rt.alloc(), before, "]", &PARAMETERS)?, None);
    Ok(())
}
