//! Rows of the particles, and products.
use super::{Case, first_wrong};
use crate::ModelFault::{
    BadName, BadNumber, MissingKey, TooMuch, UnknownKey, UnknownName, WrongKind,
};
use om_model::Table::Particle;
use om_ring::NumeralFault::{BadByte, Empty, ZeroDen};
use std::test::Fail;

const PARTICLES: [Case; 27] = [
    ("1", Some(WrongKind(Particle, 2))),
    ("{x = 1}", Some(UnknownKey(Particle, 2))),
    ("{name = 1, anti = 'b'}", Some(MissingKey(Particle, 2))),
    (
        "{name = 'b', spin = 'scalar'}",
        Some(MissingKey(Particle, 2)),
    ),
    (
        "{anti = 'b', spin = 'scalar'}",
        Some(MissingKey(Particle, 2)),
    ),
    (
        "{name = 1, anti = '1', spin = 'x'}",
        Some(WrongKind(Particle, 2)),
    ),
    (
        "{name = '1', anti = 1, spin = 'x'}",
        Some(WrongKind(Particle, 2)),
    ),
    (
        "{name = '1', anti = '1', spin = 1}",
        Some(WrongKind(Particle, 2)),
    ),
    (
        "{name = '1', anti = 'b', spin = 'scalar', mass = 1}",
        Some(WrongKind(Particle, 2)),
    ),
    (
        "{name = '1', anti = 'b', spin = 'scalar', width = 1}",
        Some(WrongKind(Particle, 2)),
    ),
    (
        "{name = '1', anti = 'b', spin = 'scalar', norm = 1}",
        Some(WrongKind(Particle, 2)),
    ),
    (
        "{name = '1', anti = 'b', spin = 'scalar', colour = '1'}",
        Some(WrongKind(Particle, 2)),
    ),
    (
        "{name = '1', anti = 'b', spin = 'scalar', colour = 2}",
        Some(WrongKind(Particle, 2)),
    ),
    (
        "{name = 'b', anti = 'b', spin = 'scalar', colour = -8}",
        Some(WrongKind(Particle, 2)),
    ),
    (
        "{name = 'b', anti = 'b', spin = 'scalar', colour = 1.0}",
        Some(WrongKind(Particle, 2)),
    ),
    (
        "{name = 'b', anti = 'b', spin = 'scalar', colour = true}",
        Some(WrongKind(Particle, 2)),
    ),
    (
        "{name = 'b', anti = 'b', spin = 'scalar', colour = +1}",
        None,
    ),
    (
        "{name = 'b', anti = 'b', spin = 'scalar', colour = 0x8}",
        None,
    ),
    (
        "{name = 'b', anti = 'b~', spin = 'scalar', colour = -3}",
        None,
    ),
    (
        "{name = '1', anti = 'b', spin = 'x'}",
        Some(BadName(Particle, 2)),
    ),
    (
        "{name = 'b', anti = '1', spin = 'x'}",
        Some(BadName(Particle, 2)),
    ),
    (
        "{name = 'abcdefghijklmnop', anti = 'b', spin = 'scalar'}",
        Some(BadName(Particle, 2)),
    ),
    (
        "{name = 'abcdefghijklmno', anti = 'b', spin = 'scalar'}",
        None,
    ),
    (
        "{name = 'b', anti = 'b', spin = 'x', mass = ''}",
        Some(UnknownName(Particle, 2)),
    ),
    (
        "{name = 'b', anti = 'b', spin = 'dirac ', mass = ''}",
        Some(UnknownName(Particle, 2)),
    ),
    (
        "{name = 'b', anti = 'b~', spin = 'dirac', mass = 'a*2/3i', width = '1'}",
        None,
    ),
    (
        "{name = 'b', anti = 'b', spin = 'vector', norm = '-1/3'}",
        None,
    ),
];

#[test]
fn particles(rt: HostRuntime) -> Result<(), Fail> {
    assert_eq!(rt;
        first_wrong(rt.alloc(), BEFORE_PARTICLE, "]", &PARTICLES)?,
        None
    );
    Ok(())
}

const BEFORE_PARTICLE: &str =
    "model = 'm'\nvertex = []\nparameter = [{name = 'a', value = '1'}]\nparticle = [{name = 'c', anti = 'c', spin = 'scalar'}, ";

const PRODUCTS: [Case; 14] = [
    (
        "mass = '', width = 'x'",
        Some(BadNumber(Particle, 2, Empty)),
    ),
    ("mass = 'x', width = ''", Some(UnknownName(Particle, 2))),
    (
        "width = '', norm = 'x'",
        Some(BadNumber(Particle, 2, Empty)),
    ),
    ("width = 'x', norm = ''", Some(UnknownName(Particle, 2))),
    ("norm = '1/0'", Some(BadNumber(Particle, 2, ZeroDen))),
    ("norm = 'a b'", Some(UnknownName(Particle, 2))),
    ("norm = 'i'", Some(UnknownName(Particle, 2))),
    ("norm = '1 '", Some(BadNumber(Particle, 2, BadByte(1)))),
    ("norm = '\u{e9}'", Some(BadNumber(Particle, 2, BadByte(0)))),
    ("norm = '1*'", Some(BadNumber(Particle, 2, Empty))),
    ("norm = '1*x*'", Some(UnknownName(Particle, 2))),
    ("norm = '1**x'", Some(BadNumber(Particle, 2, Empty))),
    ("norm = '1*a*3*a*5*6*7*8'", None),
    ("norm = 'x*2*3*4*5*6*7*8*9'", Some(TooMuch(Particle, 2))),
];

#[test]
fn products(rt: HostRuntime) -> Result<(), Fail> {
    let row = "{name = 'b', anti = 'b', spin = 'scalar', ";
    let before = format!(in rt.alloc(); "{BEFORE_PARTICLE}{row}")?;
    assert_eq!(rt;
        first_wrong(rt.alloc(), before.as_str(), "}]", &PRODUCTS)?,
        None
    );
    Ok(())
}
