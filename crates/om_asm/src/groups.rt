//! The groups of lines that name particles, vertices, legs, flows and denominators.
ghost use Rattle.std.specs.Prelude.{◌≤◌, IfOk, codes, length};
ghost use Rattle.std.specs.Str.{bytes_eq};
ghost use Rattle.om_asm.specs.Rows.{GivesAt, formed};
ghost use Rattle.om_asm.specs.Reading.{particle_row, leg_row, den_row};
ghost use Rattle.om_asm.specs.Vertices.{vertex_row};
ghost use Rattle.om_asm.specs.Flows.{flow_line};
ghost use Rattle.om_asm.specs.Program.{begins_particle, particles_at, rows_at};
ghost use Rattle.om_code.specs.declared.code.TheConstants.{MOST_PARTICLE_LINES};

use crate::fault::{AsmFault, LineFault};
use crate::field_lines::{read_den_line, read_leg_line};
use crate::fields::Fields;
use crate::flow_line::read_flow_line;
use crate::lines::{Lines, Words};
use crate::particle_line::read_particle_line;
use crate::rows::{LineKind, formed, read_list};
use crate::vertex_line::read_vertex_line;
use om_code::{Den, MOST_PARTICLE_LINES};
use om_colour::Flow;
use om_model::{Particle, Vertex};
use om_ring::List;
use std::alloc::Global;

const PARTICLE: &[u8] = b"particle";

const VERTEX: &[u8] = b"vertex";

const LEG: &[u8] = b"leg";

const FLOW: &[u8] = b"flow";

const DEN: &[u8] = b"den";

// The particle lines.
#[derive(Drop)]
struct Particles;

impl LineKind for Particles {
    type Row = Particle;

    ghost starts = { λ _. begins_particle };

    ghost row_of = { λ _ _ words. particle_row words };

    fn begins(&self, count: usize, word: &[u8]) -> bool {
        word == PARTICLE && count < MOST_PARTICLE_LINES
    }

    fn read(&self, alloc: Global, _word: &[u8], words: Words) -> Result<Particle, LineFault> {
        read_particle_line(alloc, words)
    }
}

// The vertex lines, whose names are those of the particles.
#[derive(Drop)]
struct Vertices<'a, 'p> {
    fields: &'a Fields<'p>,
}

impl LineKind for Vertices<'_, '_> {
    type Row = Vertex;

    ghost starts = { λ _ _ w. bytes_eq w (codes "vertex") };

    ghost row_of = { λ kind _ words. vertex_row kind.fields.now words };

    fn begins(&self, _count: usize, word: &[u8]) -> bool {
        word == VERTEX
    }

    fn read(&self, alloc: Global, _word: &[u8], words: Words) -> Result<Vertex, LineFault> {
        read_vertex_line(alloc, self.fields, words)
    }
}

// The leg lines, whose names are those of the particles.
#[derive(Drop)]
struct Legs<'a, 'p> {
    fields: &'a Fields<'p>,
}

impl LineKind for Legs<'_, '_> {
    type Row = u16;

    ghost starts = { λ _ _ w. bytes_eq w (codes "leg") };

    ghost row_of = { λ kind _ words. leg_row kind.fields.now words };

    fn begins(&self, _count: usize, word: &[u8]) -> bool {
        word == LEG
    }

    fn read(&self, _alloc: Global, _word: &[u8], words: Words) -> Result<u16, LineFault> {
        read_leg_line(self.fields, words)
    }
}

// The flow lines.
#[derive(Drop)]
struct Flows;

impl LineKind for Flows {
    type Row = Flow;

    ghost starts = { λ _ _ w. bytes_eq w (codes "flow") };

    ghost row_of = { λ _ _ words. formed (flow_line words) };

    fn begins(&self, _count: usize, word: &[u8]) -> bool {
        word == FLOW
    }

    fn read(&self, _alloc: Global, _word: &[u8], words: Words) -> Result<Flow, LineFault> {
        formed(read_flow_line(words))
    }
}

// The den lines, whose names are those of the particles.
#[derive(Drop)]
struct Dens<'a, 'p> {
    fields: &'a Fields<'p>,
}

impl LineKind for Dens<'_, '_> {
    type Row = Den;

    ghost starts = { λ _ _ w. bytes_eq w (codes "den") };

    ghost row_of = { λ kind _ words. den_row kind.fields.now words };

    fn begins(&self, _count: usize, word: &[u8]) -> bool {
        word == DEN
    }

    fn read(&self, _alloc: Global, _word: &[u8], words: Words) -> Result<Den, LineFault> {
        read_den_line(self.fields, words)
    }
}

/// The particles, at most so many as a code may have lines of.
pub(crate) fn read_particles(alloc: Global, lines: &mut Lines) -> Result<List<Particle>, AsmFault>
    ensures rows { GivesAt (particles_at lines.old) result lines.new }
    ensures few { IfOk result (λ particles. length particles ≤ MOST_PARTICLE_LINES) }
{
    read_list(alloc, &Particles, lines)
}

/// The vertices from a line on.
pub(crate) fn read_vertices(
    alloc: Global,
    fields: &Fields,
    lines: &mut Lines,
) -> Result<List<Vertex>, AsmFault>
    ensures { GivesAt (rows_at (codes "vertex") (vertex_row fields.now) lines.old) result lines.new }
{
    read_list(alloc, &Vertices { fields: &*fields }, lines)
}

/// The fields of the legs from a line on.
pub(crate) fn read_legs(
    alloc: Global,
    fields: &Fields,
    lines: &mut Lines,
) -> Result<List<u16>, AsmFault>
    ensures { GivesAt (rows_at (codes "leg") (leg_row fields.now) lines.old) result lines.new }
{
    read_list(alloc, &Legs { fields: &*fields }, lines)
}

/// The flows from a line on.
pub(crate) fn read_flows(alloc: Global, lines: &mut Lines) -> Result<List<Flow>, AsmFault>
    ensures { GivesAt (rows_at (codes "flow") (λ words. formed (flow_line words)) lines.old) result lines.new }
{
    read_list(alloc, &Flows, lines)
}

/// The denominators from a line on.
pub(crate) fn read_dens(
    alloc: Global,
    fields: &Fields,
    lines: &mut Lines,
) -> Result<List<Den>, AsmFault>
    ensures { GivesAt (rows_at (codes "den") (den_row fields.now) lines.old) result lines.new }
{
    read_list(alloc, &Dens { fields: &*fields }, lines)
}
