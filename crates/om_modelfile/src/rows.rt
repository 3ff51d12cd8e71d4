//! The rows of a table, one after the other.
ghost use Rattle.std.specs.Prelude.{◌≡◌, ◌^◌, ◌≤◌, IfOk, length, map, Result};
ghost use Rattle.toml.specs.Data.{Data};
ghost use Rattle.toml.specs.View.{view};
ghost use Rattle.om_model.specs.declared.limits.TheConstants.{MOST_VERTICES};
ghost use Rattle.om_modelfile.specs.Each.{rows_of};
ghost use Rattle.om_modelfile.specs.Faults.{Answers, Gives};
ghost use Rattle.om_modelfile.specs.Parameters.{parameter_of};
ghost use Rattle.om_modelfile.specs.Particles.{particle_of};
ghost use Rattle.om_modelfile.specs.Vertices.{vertex_of};
ghost use Rattle.om_modelfile.specs.declared.fault.RowFault.{RowFault};

use crate::fault::{ModelFault, RowFault};
use crate::parameter::{Parameter, read_parameter};
use crate::particle::read_particle;
use crate::vertex::read_vertex;
use om_model::{Particle, Vertex};
use om_ring::List;
use std::alloc::Global;
use toml::Value;

/// A kind of rows, with what the names in them refer to.
pub(crate) trait RowKind {
    type Row: Drop;

    /// What a row says.
    ghost row_of: { Self → Data → Result Self.Row RowFault };

    fn read(&self, alloc: Global, row: &Value) -> Result<Self::Row, RowFault>
        ensures { Gives (λ row. row) result (row_of self.now (view row.now)) };
}

#[derive(Drop)]
pub(crate) struct ParameterRows;

impl RowKind for ParameterRows {
    type Row = Parameter;

    ghost row_of = { λ kind. parameter_of };

    fn read(&self, _alloc: Global, row: &Value) -> Result<Parameter, RowFault> {
        read_parameter(row)
    }
}

#[derive(Drop)]
pub(crate) struct ParticleRows<'a> {
    pub(crate) parameters: &'a [Parameter],
}

impl RowKind for ParticleRows<'_> {
    type Row = Particle;

    ghost row_of = { λ kind. particle_of kind.parameters.now };

    fn read(&self, alloc: Global, row: &Value) -> Result<Particle, RowFault> {
        read_particle(alloc, self.parameters, row)
    }
}

#[derive(Drop)]
pub(crate) struct VertexRows<'a> {
    pub(crate) parameters: &'a [Parameter],
    pub(crate) particles: &'a [Particle],
    pub(crate) ghost few: { length particles.now ≤ 2 ^ 15 },
}

impl RowKind for VertexRows<'_> {
    type Row = Vertex;

    ghost row_of = { λ kind. vertex_of kind.parameters.now kind.particles.now };

    fn read(&self, alloc: Global, row: &Value) -> Result<Vertex, RowFault> {
        read_vertex(alloc, self.parameters, self.particles, row)
    }
}

/// What the rows of a table say, counted from 1, up to the first fault.
pub(crate) fn read_rows<K: RowKind>(
    alloc: Global,
    kind: &K,
    table: om_model::Table,
    rows: &[Value],
) -> Result<List<K::Row>, ModelFault>
    requires { length rows.now ≤ MOST_VERTICES }
    ensures rows { Answers (λ rows. rows) result (rows_of table (K.row_of kind.now) (map view rows.now)) }
    ensures count { IfOk result (λ done. length done ≡ length rows.now) }
{
    let mut done = List::new(alloc);
    for (index, row) in rows.iter().enumerate() {
        match kind.read(alloc, row) {
            Ok(said) => match done.push(said) {
                Ok(()) => {}
                Err(_) => return Err(ModelFault::Memory),
            },
            Err(fault) => return Err(fault.at_row(table, index as u32 + 1)),
        }
    }
    Ok(done)
}
