//! What holds of a code by its types, which contracts know only of values that are read.

use om_code::{Code, Den, Instr};
use om_colour::Flow;
use om_legs::Branches;
use om_model::{Particle, Vertex};
use om_ring::{List, Numeral};

/// A type with a property that each of its values has.
pub(crate) trait InRange {
    /// The property.
    ghost property: { Self → Type 0 };

    /// The value has it. Nothing else is done.
    fn read_range(&self)
        ensures { property self.now };
}

impl<T: InRange + Drop> InRange for List<T> {
    ghost use Rattle.std.specs.List.{AllByRecursion};

    ghost property = { AllByRecursion T.property };

    fn read_range(&self) {
        for item in self.as_slice() {
            item.read_range();
        }
    }
}

impl InRange for Numeral {
    ghost use Rattle.om_ring.specs.Numerals.{NumeralFits};

    ghost property = { NumeralFits };

    fn read_range(&self) {
        let _num = self.num;
        let _den = self.den;
    }
}

impl InRange for Particle {
    ghost use Rattle.om_asm.specs.InRange.{ParticleInRange};

    ghost property = { ParticleInRange };

    fn read_range(&self) {
        let _name = self.name.bytes();
        let _anti = self.anti.bytes();
        self.mass.read_range();
        self.width.read_range();
        self.norm.read_range();
    }
}

impl InRange for Vertex {
    ghost use Rattle.om_asm.specs.InRange.{VertexInRange};

    ghost property = { VertexInRange };

    fn read_range(&self) {
        let _order = self.order;
        self.factors.read_range();
    }
}

impl InRange for Flow {
    ghost use Rattle.std.specs.Prelude.{◌≡◌, length};

    ghost property = { λ w. length w.ends ≡ 12 };

    fn read_range(&self) {
        let _ends = self.ends;
    }
}

impl InRange for Den {
    ghost use Rattle.om_legs.specs.Legs.{IsLegSet};

    ghost property = { λ d. IsLegSet d.legs };

    fn read_range(&self) {
        let _size = self.legs.size();
    }
}

impl InRange for Branches {
    ghost use Rattle.std.specs.Prelude.{◌≡◌, length};

    ghost property = { λ b. length b.nodes ≡ 4 };

    fn read_range(&self) {
        let _nodes = self.nodes;
    }
}

impl InRange for Instr {
    ghost use Rattle.om_asm.specs.InRange.{InstrInRange};

    ghost property = { InstrInRange };

    fn read_range(&self) {
        match self {
            Instr::Load { leg, .. } => {
                let _leg = *leg;
            }
            Instr::Prop { .. } => {}
            Instr::Fuse {
                choice,
                branches,
                ..
            }
            | Instr::Key {
                choice,
                branches,
                ..
            } => {
                let _choice = *choice;
                branches.read_range();
            }
        }
    }
}

impl InRange for Code {
    ghost use Rattle.om_asm.specs.InRange.{CodeInRange};

    ghost property = { CodeInRange };

    fn read_range(&self) {
        let _name = self.model.name.bytes();
        self.model.particles.read_range();
        self.model.vertices.read_range();
        self.flows.read_range();
        self.dens.read_range();
        self.instrs.read_range();
    }
}
