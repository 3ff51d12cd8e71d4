//! A process over its model, as the vertices of its diagrams see it.
ghost use Rattle.std.specs.Prelude.{◌≡◌, ◌+◌, ◌*◌, ◌<◌, ◌≤◌, ◌∷◌, ◌&&◌, IfOk, Some, length, cond, nat_le};
ghost use Rattle.om_legs.specs.declared.leg_set.TheConstants.{MOST_LEGS};
ghost use Rattle.om_legs.specs.Legs.{set_of, set_of_one, union};
ghost use Rattle.om_model.specs.Model.{colours_of_vertex};
ghost use Rattle.om_model.specs.Rules.{HasPattern};
ghost use Rattle.om_graph.specs.Reactions.{is_fermion_leg, reaction_in, HasRows};
ghost use Rattle.om_model.specs.ProcessOf.{IsProcessOf};
ghost use Rattle.om_model.specs.WellFormed.{IsWellFormed};
ghost use Rattle.om_model.specs.ModelLines.{is_dirac as is_dirac_of};
ghost use Rattle.om_graph.specs.Vertices.{is_outward as is_outward_of, keeps_edges as keeps_edges_of, leg_key};

use crate::Key;
use crate::edges::keep_all;
use crate::known_row::KnownRow;
use om_colour::{Choice, ColourRow, partial_of_leg};
use om_legs::LegSet;
use om_lorentz::Spin;
use om_model::{Leg, Particle, Process, Vertex, colour_of_field, colour_row, spin_of_field};
use om_ring::NoMemory;
use std::alloc::Global;
use std::marker::Model;

/// Seen as the model and the process. `rows` are the rows of the colour table that the vertices have.
#[derive(Drop)]
pub(crate) struct Reaction<'a> {
    model: &'a om_model::Model,
    process: &'a Process,
    fermions: LegSet,
    rows: Vec<KnownRow>,
}

impl<'a> Model for Reaction<'a> {
    ghost use Rattle.std.specs.Prelude.{◌≡◌};
    ghost use Rattle.om_model.specs.declared.model.Model.{Model as ModelOf};
    ghost use Rattle.om_model.specs.declared.process.Process.{Process as ProcessOf};
    ghost use Rattle.om_graph.specs.Reactions.{HasRows, fermions_of};
    ghost use Rattle.om_model.specs.ProcessOf.{IsProcessOf};
    ghost use Rattle.om_model.specs.WellFormed.{IsWellFormed};

    ghost Value = { ModelOf × ProcessOf };

    ghost view = { λ x. (x.model.now, x.process.now) };

    ghost invariant = { λ x. IsWellFormed x.model.now × IsProcessOf x.model.now x.process.now × (x.fermions ≡ fermions_of x.model.now x.process.now) × HasRows x.model.now x.rows.items };
}

impl<'a> Reaction<'a> {
    pub(crate) fn new(
        alloc: Global,
        model: &'a om_model::Model,
        process: &'a Process,
    ) -> Result<Reaction<'a>, NoMemory>
        requires accepted { IsWellFormed model.now }
        requires process { IsProcessOf model.now process.now }
        ensures { IfOk result (λ x. (x.0 ≡ model.now) × (x.1 ≡ process.now)) }
    {
        let rows = colour_rows(alloc, model)?;
        let fermions = fermions(model.particles.as_slice(), process.legs.as_slice());
        Ok(Reaction {
            model,
            process,
            fermions,
            rows,
        })
    }

    /// How many legs there are.
    pub(crate) fn size(&self) -> u8
        ensures size { result ≡ (reaction_in self.now).scattering.size }
        ensures least { 3 ≤ result }
        ensures most { result ≤ MOST_LEGS }
    {
        self.process.legs.len() as u8
    }

    pub(crate) fn particles(&self) -> &[Particle]
        ensures { result.now ≡ self.now.0.particles }
    {
        self.model.particles.as_slice()
    }

    /// How many vertex rows there are.
    pub(crate) fn vertices(&self) -> u32
        ensures { result ≡ (reaction_in self.now).scattering.theory.vertices }
    {
        self.model.vertices.len() as u32
    }

    /// What is known of a leg as a node.
    pub(crate) fn leg_key(&self, leg: u8) -> Key
        requires some { 0 < leg }
        requires within { leg ≤ (reaction_in self.now).scattering.size }
        ensures { result ≡ leg_key (reaction_in self.now) leg }
    {
        let field = self.process.legs.at((leg - 1) as usize).field;
        Key {
            legs: LegSet::one(leg),
            field,
            partial: partial_of_leg(leg, colour_of_field(self.particles(), field)),
        }
    }

    /// The legs that are fermions.
    pub(crate) fn fermions(&self) -> LegSet
        ensures { result ≡ (reaction_in self.now).fermions }
    {
        self.fermions
    }

    /// The fields that enter a vertex, slot by slot.
    pub(crate) fn slots(&self, vertex: u32) -> &[u16]
        requires { vertex < (reaction_in self.now).scattering.theory.vertices }
        ensures { result.now ≡ (reaction_in self.now).scattering.theory.slots vertex }
    {
        self.model.vertices.at(vertex as usize).fields.as_slice()
    }

    /// How many choices a vertex has.
    pub(crate) fn choices(&self, vertex: u32) -> u8
        requires { vertex < (reaction_in self.now).scattering.theory.vertices }
        ensures { result ≡ (reaction_in self.now).scattering.theory.choices vertex }
    {
        self.rows[vertex as usize].count()
    }

    /// A choice of a vertex.
    pub(crate) fn choice(&self, vertex: u32, k: u8) -> Choice
        requires vertex { vertex < (reaction_in self.now).scattering.theory.vertices }
        requires choice { k < (reaction_in self.now).scattering.theory.choices vertex }
        ensures { result ≡ (reaction_in self.now).choice vertex k }
    {
        self.rows[vertex as usize].choice(k)
    }

    /// Whether of each named set the set itself or what it leaves lies within the rest or one of the parts.
    #[tactic(auto, unfolding(crate::specs::Vertices::keeps_edges))]
    pub(crate) fn keeps_edges(&self, rest: LegSet, parts: &[LegSet]) -> bool
        ensures { result ≡ keeps_edges_of (reaction_in self.now) (rest ∷ parts.now) }
    {
        keep_all(self.size(), self.process.edges.as_slice(), rest, parts)
    }
}

/// Whether a side of an edge of so many legs lies away from the keystone: at most half of the legs, and not leg 1 where it has half.
pub(crate) fn is_outward(set: LegSet, size: u8) -> bool
    ensures { result ≡ is_outward_of size set }
{
    let twice = 2 * u16::from(set.size());
    let size = u16::from(size);
    twice < size || twice == size && !set.holds(1)
}

fn colour_rows(alloc: Global, model: &om_model::Model) -> Result<Vec<KnownRow>, NoMemory>
    requires { IsWellFormed model.now }
    ensures { IfOk result (λ rows. HasRows model.now rows.items) }
{
    let mut rows = Vec::new(alloc);
    let particles = model.particles.as_slice();
    for k in 0..model.vertices.len() {
        let row = row_of_vertex(particles, model.vertices.at(k));
        let known = KnownRow::new(alloc, row)?;
        if rows.push(known).is_err() {
            return Err(NoMemory);
        }
    }
    Ok(rows)
}

#[tactic(auto, using(crate::proofs::VertexColours::few_fields, crate::proofs::VertexColours::some_row))]
fn row_of_vertex(particles: &[Particle], vertex: &Vertex) -> ColourRow
    requires { HasPattern particles.now vertex.now }
    ensures { colours_of_vertex particles.now (Some vertex.now) ≡ Some result }
{
    match colour_row(particles, vertex.fields.as_slice()) {
        Some(row) => row,
        None => unreachable!(),
    }
}

fn fermions(particles: &[Particle], legs: &[Leg]) -> LegSet
    requires { length legs.now ≤ MOST_LEGS }
    ensures { result ≡ set_of (λ k. nat_le k (length legs.now) && is_fermion_leg particles.now legs.now k) }
{
    let mut set = LegSet::empty();
    for k in 0..legs.len() {
        let there = is_dirac(spin_of_field(particles, legs[k].field));
        set = with_leg(set, k as u8 + 1, there);
    }
    set
}

fn with_leg(set: LegSet, leg: u8, there: bool) -> LegSet
    requires some { 0 < leg }
    requires within { leg ≤ MOST_LEGS }
    ensures { result ≡ cond there (union set (set_of_one leg)) set }
{
    if there {
        set.union(LegSet::one(leg))
    } else {
        set
    }
}

fn is_dirac(spin: Spin) -> bool
    ensures { result ≡ is_dirac_of spin }
{
    match spin {
        Spin::Dirac => true,
        _ => false,
    }
}
