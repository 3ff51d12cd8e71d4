//! Rows of the vertices.
use super::{BAD_PATTERN, Case, first_wrong};
use crate::ModelFault::{BadNumber, MissingKey, TooMuch, UnknownKey, UnknownName, WrongKind};
use om_model::Table::Vertex;
use om_ring::NumeralFault::{BadByte, Empty};
use std::test::Fail;

const BEFORE_VERTEX: &str =
    "model = 'm'\nparameter = [{name = 'a', value = '1'}]\nparticle = [{name = 'c', anti = 'c~', spin = 'scalar'}]\nvertex = [{fields = ['c', 'c', 'c'], structure = 'sss', factors = ['1']}, ";

const VERTICES: [Case; 26] = [
    ("[]", Some(WrongKind(Vertex, 2))),
    ("{x = 1}", Some(UnknownKey(Vertex, 2))),
    ("{fields = 1, structure = 1}", Some(MissingKey(Vertex, 2))),
    ("{fields = 1, factors = []}", Some(MissingKey(Vertex, 2))),
    ("{structure = 1, factors = []}", Some(MissingKey(Vertex, 2))),
    (
        "{fields = 'c', factors = [], structure = 'x'}",
        Some(WrongKind(Vertex, 2)),
    ),
    (
        "{fields = ['c', 1], factors = [], structure = 'x'}",
        Some(WrongKind(Vertex, 2)),
    ),
    (
        "{fields = [], factors = '1', structure = 'x'}",
        Some(WrongKind(Vertex, 2)),
    ),
    (
        "{fields = [], factors = [1], structure = 'x'}",
        Some(WrongKind(Vertex, 2)),
    ),
    (
        "{fields = [], factors = [], structure = 1}",
        Some(WrongKind(Vertex, 2)),
    ),
    (
        "{fields = [], factors = [], structure = 'x', order = '1'}",
        Some(WrongKind(Vertex, 2)),
    ),
    (
        "{fields = [], factors = [], structure = 'x', order = 1.0}",
        Some(WrongKind(Vertex, 2)),
    ),
    (
        "{fields = [], factors = [], structure = 'x', order = 13}",
        Some(UnknownName(Vertex, 2)),
    ),
    (
        "{fields = ['c', 'x'], factors = [], structure = 'sss', order = 13}",
        Some(UnknownName(Vertex, 2)),
    ),
    (
        "{fields = ['c', 'c', 'c', 'c', 'x'], factors = [], structure = 'sss'}",
        Some(UnknownName(Vertex, 2)),
    ),
    (
        "{fields = ['c', 'c', 'c', 'c', 'c'], factors = [''], structure = 'sss'}",
        Some(TooMuch(Vertex, 2)),
    ),
    (
        "{fields = [], factors = ['', '', '', ''], structure = 'sss'}",
        Some(TooMuch(Vertex, 2)),
    ),
    (
        "{fields = [], factors = [''], structure = 'sss', order = -1}",
        Some(TooMuch(Vertex, 2)),
    ),
    (
        "{fields = [], factors = [''], structure = 'sss', order = 13}",
        Some(TooMuch(Vertex, 2)),
    ),
    (
        "{fields = [], factors = [''], structure = 'sss', order = 12}",
        Some(BadNumber(Vertex, 2, Empty)),
    ),
    (
        "{fields = [], factors = ['1', 'x', ''], structure = 'sss'}",
        Some(UnknownName(Vertex, 2)),
    ),
    (
        "{fields = [], factors = ['1*2*3*4*5*6*7*8*9', ''], structure = 'sss'}",
        Some(TooMuch(Vertex, 2)),
    ),
    (
        "{fields = ['c', 'c'], factors = ['a'], structure = 'sss'}",
        BAD_PATTERN,
    ),
    (
        "{fields = ['c', 'c~', 'c'], factors = [], structure = 'sss'}",
        BAD_PATTERN,
    ),
    (
        "{fields = ['c', 'c', 'c~', 'c'], factors = ['a'], structure = 'ssss', order = 0}",
        None,
    ),
    (
        "{fields = ['c~', 'c', 'c', 'c'], factors = ['-a*a'], structure = 'ssss', order = 12}",
        Some(BadNumber(Vertex, 2, BadByte(1))),
    ),
];

#[test]
fn vertices(rt: HostRuntime) -> Result<(), Fail> {
    assert_eq!(rt;
        first_wrong(rt.alloc(), BEFORE_VERTEX, "]", &VERTICES)?,
        None
    );
    Ok(())
}

// So many rows of each kind.
