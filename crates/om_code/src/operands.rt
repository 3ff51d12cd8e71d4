//! The slots that an instruction names.
ghost use Rattle.std.specs.Prelude.{◌≡◌, ◌≤◌, length};
ghost use Rattle.om_code.specs.Ops.{registers_of};

use crate::Instr;
use std::marker::Model;

/// The slots that an instruction names, or its registers where they have no slots yet: at most five. Contracts see the list.
#[derive(Drop)]
pub struct Operands {
    count: u8,
    registers: [u32; 5],
}

impl Model for Operands {
    ghost use Rattle.std.specs.Prelude.{ℕ, List, take, ◌≤◌};

    ghost Value = { List ℕ };

    ghost view = { λ operands. take operands.count operands.registers };

    ghost invariant = { λ operands. operands.count ≤ 5 };
}

impl Operands {
    /// The slots, in order.
    pub fn as_slice(&self) -> &[u32]
        ensures same { result.now ≡ self.now }
        ensures few { length self.now ≤ 5 }
    {
        &self.registers[..self.count as usize]
    }
}

impl Instr {
    /// The slots that the instruction names, first the one that it writes, then the branches in order.
    pub fn operands(&self) -> Operands
        ensures { result ≡ registers_of self.now }
    {
        match self {
            Instr::Load { to, .. } => Operands {
                count: 1,
                registers: [*to, 0, 0, 0, 0],
            },
            Instr::Prop { of, .. } => Operands {
                count: 1,
                registers: [*of, 0, 0, 0, 0],
            },
            Instr::Fuse { to, branches, .. } => {
                let [first, second, third, fourth] = branches.nodes;
                Operands {
                    count: branches.count + 1,
                    registers: [*to, first, second, third, fourth],
                }
            }
            Instr::Key { branches, .. } => {
                let [first, second, third, fourth] = branches.nodes;
                Operands {
                    count: branches.count,
                    registers: [first, second, third, fourth, 0],
                }
            }
        }
    }
}
