//! The lines of legs, flows and denominators.
ghost use Rattle.std.specs.Prelude.{◌≡◌, ◌+◌, ◌≤◌, ◌++◌, length};
ghost use Rattle.om_io.specs.Lines.{line_text};
ghost use Rattle.om_program_text.specs.ProgramText.{leg_words, flow_words, den_words};
ghost use Rattle.om_code.specs.Plain.{IsPlainFlow, IsPlainDen, IsNamed};

use om_code::Den;
use om_colour::{Flow, flow_text};
use om_io::{Failed, ROOM_BYTES, RowKind, Sink, make_room};
use om_model::{Particle, field_name, push_leg_set};
use om_ring::{LINE_BYTES, Line, List};

/// The legs, each with its field.
#[derive(Drop)]
pub(crate) struct LegLines<'a> {
    pub(crate) particles: &'a List<Particle>,
}

impl RowKind for LegLines<'_> {
    type Row = u16;

    ghost plain = { λ kind f. IsNamed kind.particles.now f };

    ghost text = { λ kind f. line_text (leg_words kind.particles.now f) };

    fn write<W: Sink>(&self, field: &u16, to: &mut W, line: &mut Line) -> Result<(), Failed> {
        make_room(to, line)?;
        push_leg(self.particles, *field, line);
        Ok(())
    }
}

fn push_leg(particles: &List<Particle>, field: u16, line: &mut Line)
    requires { length line.old + ROOM_BYTES ≤ LINE_BYTES }
    ensures { line.new ≡ line.old ++ line_text (leg_words particles.now field) }
{
    line.push(b"leg ");
    line.push(field_name(particles.as_slice(), field));
    line.push(b"\n");
}

/// The flows.
#[derive(Drop)]
pub(crate) struct FlowLines;

impl RowKind for FlowLines {
    type Row = Flow;

    ghost plain = { λ _ w. IsPlainFlow w };

    ghost text = { λ _ w. line_text (flow_words w) };

    fn write<W: Sink>(&self, flow: &Flow, to: &mut W, line: &mut Line) -> Result<(), Failed> {
        make_room(to, line)?;
        push_flow(flow, line);
        Ok(())
    }
}

fn push_flow(flow: &Flow, line: &mut Line)
    requires { length line.old + ROOM_BYTES ≤ LINE_BYTES }
    ensures { line.new ≡ line.old ++ line_text (flow_words flow.now) }
{
    line.push(b"flow ");
    flow_text(flow, line);
    line.push(b"\n");
}

/// The denominators.
#[derive(Drop)]
pub(crate) struct DenLines<'a> {
    pub(crate) particles: &'a List<Particle>,
}

impl RowKind for DenLines<'_> {
    type Row = Den;

    ghost plain = { λ kind d. IsPlainDen kind.particles.now d };

    ghost text = { λ kind d. line_text (den_words kind.particles.now d) };

    fn write<W: Sink>(&self, den: &Den, to: &mut W, line: &mut Line) -> Result<(), Failed> {
        make_room(to, line)?;
        push_den(self.particles, den, line);
        Ok(())
    }
}

fn push_den(particles: &List<Particle>, den: &Den, line: &mut Line)
    requires { length line.old + ROOM_BYTES ≤ LINE_BYTES }
    ensures { line.new ≡ line.old ++ line_text (den_words particles.now den.now) }
{
    line.push(b"den ");
    push_leg_set(den.legs, line);
    line.push(b" ");
    line.push(field_name(particles.as_slice(), den.field));
    line.push(b"\n");
}
