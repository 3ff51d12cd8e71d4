//! Whole files: limits, models, and rows that repeat a name.
use super::model_of;
use crate::ModelFault::{BadName, TooMuch, UnknownName};
use om_model::Table::{Top, Vertex};
use om_ring::Numeral;
use std::alloc::Global;
use std::test::Fail;

fn sized(
    alloc: Global,
    name: &str,
    parameters: usize,
    particles: usize,
    vertices: usize,
) -> Result<String, Fail> {
    let mut text = format!(in alloc; "model = '{name}'\nparameter = [")?;
    for _ in 0..parameters {
        text.push_str("{name = 'a', value = '1'}, ")?;
    }
    text.push_str("]\nparticle = [")?;
    for k in 0..particles {
        let row = format!(in alloc; "{{name = 'p{k}', anti = 'p{k}', spin = 'scalar'}}, ")?;
        text.push_str(row.as_str())?;
    }
    text.push_str("]\nvertex = [")?;
    for _ in 0..vertices {
        text.push_str("{fields = ['p0', 'p0', 'p0'], structure = 'sss', factors = ['1']}, ")?;
    }
    text.push_str("]\n")?;
    Ok(text)
}

#[test]
fn limits(rt: HostRuntime) -> Result<(), Fail> {
    for (name, parameters, particles, vertices, fault) in [
        ("m", 256, 64, 512, None),
        ("m", 257, 0, 1, Some(TooMuch(Top, 0))),
        ("m", 0, 65, 0, Some(TooMuch(Top, 0))),
        ("m", 0, 0, 513, Some(TooMuch(Top, 0))),
        ("1", 257, 65, 513, Some(BadName(Top, 0))),
        ("m", 0, 0, 512, Some(UnknownName(Vertex, 1))),
    ] {
        let text = sized(rt.alloc(), name, parameters, particles, vertices)?;
        assert_eq!(rt; model_of(rt.alloc(), text.as_bytes()).err(), fault);
    }
    Ok(())
}

const PHI3: &str = "model = 'phi3'
[[particle]]
name = 'phi'
anti = 'phi'
spin = 'scalar'
[[vertex]]
fields = ['phi', 'phi', 'phi']
structure = 'sss'
factors = ['1']
";

const QCD: &str = "model = 'qcd'
particle = [
  {name = 'q', anti = 'q~', spin = 'dirac', colour = 3},
  {name = 'Q', anti = 'Q~', spin = 'dirac', colour = 3},
  {name = 'g', anti = 'g', spin = 'vector', colour = 8},
  {name = 'gn', anti = 'gn', spin = 'vector', norm = '-1/3'},
]
vertex = [
  {fields = ['q~', 'q', 'g'], structure = 'ffv', factors = ['1', '0']},
  {fields = ['q~', 'q', 'gn'], structure = 'ffv', factors = ['1', '0']},
  {fields = ['Q~', 'Q', 'g'], structure = 'ffv', factors = ['1', '0']},
  {fields = ['Q~', 'Q', 'gn'], structure = 'ffv', factors = ['1', '0']},
  {fields = ['g', 'g', 'g'], structure = 'vvv', factors = ['1']},
  {fields = ['g', 'g', 'g', 'g'], structure = 'gluon4', factors = ['1'], order = 2},
]
";

#[test]
fn models(rt: HostRuntime) -> Result<(), Fail> {
    for (text, name, particles, vertices) in [(PHI3, "phi3", 1, 1), (QCD, "qcd", 4, 6)] {
        let model = model_of(rt.alloc(), text.as_bytes()).ok().ok_or("refused")?;
        assert_eq!(rt; model.name.bytes(), name.as_bytes());
        assert_eq!(rt;
            (model.particles.len(), model.vertices.len()),
            (particles, vertices)
        );
    }
    Ok(())
}

#[test]
fn first_of_repeated_names(rt: HostRuntime) -> Result<(), Fail> {
    let parameters = "[{name = 'a', value = '2'}, {name = 'a', value = '3'}]";
    let particle = "{name = 'b', anti = 'b', spin = 'scalar', mass = 'a*5'}";
    let text = format!(in rt.alloc();
        "model = 'm'\nvertex = []\nparameter = {parameters}\nparticle = [{particle}]"
    )?;
    let model = model_of(rt.alloc(), text.as_bytes()).ok().ok_or("refused")?;
    let particle = model.particles.as_slice().first().ok_or("no particle")?;
    let number = |num| Numeral {
        neg: false,
        num,
        den: 1,
        imag: false,
    };
    assert_eq!(rt; particle.mass.as_slice(), [number(2), number(5)].as_slice());
    Ok(())
}
