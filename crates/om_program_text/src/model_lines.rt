//! The rows of a model, whose lines may be longer than the buffer.
ghost use Rattle.std.specs.Prelude.{◌≡◌, ◌+◌, ◌≤◌, ◌++◌, ◌∷◌, List, length, decimal, codes};
ghost use Rattle.om_ring.specs.Numerals.{numeral_text};
ghost use Rattle.om_io.specs.Lines.{line_text};
ghost use Rattle.om_program_text.specs.ProgramText.{particle_words, vertex_words};
ghost use Rattle.om_program_text.specs.Parts.{names_text, particle_parts, vertex_parts};
ghost use Rattle.om_program_text.specs.Words.{product_word};
ghost use Rattle.om_model.specs.Words.{structure_word as structure_word_of, colour_word as colour_word_of};
ghost use Rattle.om_io.specs.Writing.{Writes, outlet, all_of};
ghost use Rattle.om_model.specs.Rules.{HasLength, HasLengths};
ghost use Rattle.om_code.specs.Plain.{IsPlainVertex, IsNamed};
ghost use Rattle.om_model.specs.FieldNames.{field_name as field_name_of};

use om_colour::Colour;
use om_io::{Failed, ROOM_BYTES, RowKind, Sink, make_room, write_each, write_rows};
use om_lorentz::Structure;
use om_model::{Particle, Product, Vertex, colour_word, field_name, spin_word, structure_word};
use om_ring::{LINE_BYTES, Line, List, Numeral, show_numeral};

/// The particles.
#[derive(Drop)]
pub(crate) struct ParticleLines;

impl RowKind for ParticleLines {
    type Row = Particle;

    ghost plain = { λ _ p. HasLengths p };

    ghost text = { λ _ p. line_text (particle_words p) };

    fn write<W: Sink>(
        &self,
        particle: &Particle,
        to: &mut W,
        line: &mut Line,
    ) -> Result<(), Failed> {
        write_particle(particle, to, line)
    }
}

fn write_particle<W: Sink>(particle: &Particle, to: &mut W, line: &mut Line) -> Result<(), Failed>
    ensures { Writes (outlet (W.written to.old) (W.faults to.old) line.old) (outlet (W.written to.new) (W.faults to.new) line.new) (all_of (particle_parts particle.now)) result }
{
    write_names(particle, to, line)?;
    write_product(&particle.mass, to, line)?;
    write_product(&particle.width, to, line)?;
    write_product(&particle.norm, to, line)?;
    write_colour(particle.colour, to, line)
}

// The words of a particle line up to its spin.
fn write_names<W: Sink>(particle: &Particle, to: &mut W, line: &mut Line) -> Result<(), Failed>
    ensures { let p = particle.now in Writes (outlet (W.written to.old) (W.faults to.old) line.old) (outlet (W.written to.new) (W.faults to.new) line.new)
        (names_text p) result }
{
    make_room(to, line)?;
    push_names(particle, line);
    Ok(())
}

fn push_names(particle: &Particle, line: &mut Line)
    requires { length line.old + ROOM_BYTES ≤ LINE_BYTES }
    ensures { let p = particle.now in line.new ≡ line.old ++ names_text p }
{
    line.push(b"particle ");
    line.push(particle.name.bytes());
    line.push(b" ");
    line.push(particle.anti.bytes());
    line.push(b" ");
    line.push(spin_word(particle.spin));
}

// The end of a particle line.
fn write_colour<W: Sink>(colour: Colour, to: &mut W, line: &mut Line) -> Result<(), Failed>
    ensures { Writes (outlet (W.written to.old) (W.faults to.old) line.old) (outlet (W.written to.new) (W.faults to.new) line.new) (codes " " ++ colour_word_of colour ++ codes "\n") result }
{
    make_room(to, line)?;
    line.push(b" ");
    line.push(colour_word(colour));
    line.push(b"\n");
    Ok(())
}

// A product behind a space.
fn write_product<W: Sink>(product: &Product, to: &mut W, line: &mut Line) -> Result<(), Failed>
    ensures { Writes (outlet (W.written to.old) (W.faults to.old) line.old) (outlet (W.written to.new) (W.faults to.new) line.new) (32 ∷ product_word product.now) result }
{
    make_room(to, line)?;
    line.push(b" ");
    let Some((first, later)) = product.as_slice().split_first() else {
        return Ok(());
    };
    show_numeral(first, line);
    write_each(&LaterFactors, later, to, line)
}

// The numerals of a product behind the first, each behind a star.
#[derive(Drop)]
struct LaterFactors;

impl RowKind for LaterFactors {
    ghost use Rattle.std.specs.Prelude.{◌∷◌};
    ghost use Rattle.om_ring.specs.Numerals.{numeral_text};

    type Row = Numeral;

    ghost plain = { λ _ _. Unit {0} };

    ghost text = { λ _ x. 42 ∷ numeral_text x };

    fn write<W: Sink>(&self, x: &Numeral, to: &mut W, line: &mut Line) -> Result<(), Failed> {
        make_room(to, line)?;
        line.push(b"*");
        show_numeral(x, line);
        Ok(())
    }
}

/// The vertices.
#[derive(Drop)]
pub(crate) struct VertexLines<'a> {
    pub(crate) particles: &'a List<Particle>,
}

impl RowKind for VertexLines<'_> {
    type Row = Vertex;

    ghost plain = { λ kind v. IsPlainVertex kind.particles.now v };

    ghost text = { λ kind v. line_text (vertex_words kind.particles.now v) };

    fn write<W: Sink>(&self, vertex: &Vertex, to: &mut W, line: &mut Line) -> Result<(), Failed> {
        write_vertex(self.particles, vertex, to, line)
    }
}

fn write_vertex<W: Sink>(
    particles: &List<Particle>,
    vertex: &Vertex,
    to: &mut W,
    line: &mut Line,
) -> Result<(), Failed>
    requires { IsPlainVertex particles.now vertex.now }
    ensures { Writes (outlet (W.written to.old) (W.faults to.old) line.old) (outlet (W.written to.new) (W.faults to.new) line.new) (all_of (vertex_parts particles.now vertex.now)) result }
{
    write_structure(vertex.structure, vertex.order, to, line)?;
    write_rows(&SlotFields { particles }, &vertex.fields, to, line)?;
    write_piece(b" :", to, line)?;
    write_rows(&VertexFactors, &vertex.factors, to, line)?;
    write_piece(b"\n", to, line)
}

fn write_structure<W: Sink>(
    structure: Structure,
    order: u8,
    to: &mut W,
    line: &mut Line,
) -> Result<(), Failed>
    ensures { Writes (outlet (W.written to.old) (W.faults to.old) line.old) (outlet (W.written to.new) (W.faults to.new) line.new) (codes "vertex " ++ structure_word_of structure ++ codes " " ++ decimal order) result }
{
    make_room(to, line)?;
    line.push(b"vertex ");
    line.push(structure_word(structure));
    line.push(b" ");
    line.push_number(u64::from(order));
    Ok(())
}

// A short piece of a line.
fn write_piece<W: Sink>(piece: &[u8], to: &mut W, line: &mut Line) -> Result<(), Failed>
    requires { length piece.now ≤ ROOM_BYTES }
    ensures { Writes (outlet (W.written to.old) (W.faults to.old) line.old) (outlet (W.written to.new) (W.faults to.new) line.new) piece.now result }
{
    make_room(to, line)?;
    line.push(piece);
    Ok(())
}

// The fields of the slots of a vertex, each behind a space.
#[derive(Drop)]
struct SlotFields<'a> {
    particles: &'a List<Particle>,
}

impl RowKind for SlotFields<'_> {
    ghost use Rattle.std.specs.Prelude.{◌∷◌};

    type Row = u16;

    ghost plain = { λ kind f. IsNamed kind.particles.now f };

    ghost text = { λ kind f. 32 ∷ field_name_of kind.particles.now f };

    fn write<W: Sink>(&self, field: &u16, to: &mut W, line: &mut Line) -> Result<(), Failed> {
        make_room(to, line)?;
        line.push(b" ");
        line.push(field_name(self.particles.as_slice(), *field));
        Ok(())
    }
}

// The factors of a vertex, each behind a space.
#[derive(Drop)]
struct VertexFactors;

impl RowKind for VertexFactors {
    ghost use Rattle.std.specs.Prelude.{◌∷◌};

    type Row = Product;

    ghost plain = { λ _ p. HasLength p };

    ghost text = { λ _ p. 32 ∷ product_word p };

    fn write<W: Sink>(&self, product: &Product, to: &mut W, line: &mut Line) -> Result<(), Failed> {
        write_product(product, to, line)
    }
}
