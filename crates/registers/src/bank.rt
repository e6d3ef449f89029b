// Banks of registers: the reading side, and the writing side that builds on it.
ghost use Rattle.std.specs.Prelude.{◌≡◌, ◌+◌, ◌<◌, false, List, length, IfOk, OnErr};
ghost use Rattle.registers.specs.Refusals.{numbered};
ghost use Rattle.registers.specs.Cells.{Cell, stands, index_answer, read_answer, write_answer, write_cells};

use super::record::{Fields, Record};
use super::refusal::Refusal;

// The most registers that a bank has, however much memory it is given.
pub const MAX_REGISTERS: usize = 128;

// The index, from 0, of a register among so many. Refuses (1) a number that none of them has.
pub fn index_of(register: usize, size: usize) -> Result<usize, Refusal>
    ensures value { numbered result ≡ index_answer size register }
    ensures found { IfOk result (λ i. (i < size) × (i + 1 ≡ register)) }
    ensures none { OnErr result (stands size register ≡ false) }
{
    if (1..=size).contains(&register) {
        Ok(register - 1)
    } else {
        Err(Refusal::NoRegister)
    }
}

// A bank is known by the list of its cells, register 1 first.
pub trait ReadBank {
    type Value: Copy;

    ghost cells: { Self → List (Cell Self.Value) };

    // How many registers there are.
    fn size(&self) -> usize
        ensures { result ≡ length (cells self.now) };

    // The record that a register holds. Refuses a number that no register has (1), then an
    // unreadable register (3).
    fn read(&self, register: usize) -> Result<Record<Self::Value>, Refusal>
        ensures { numbered result ≡ read_answer (cells self.now) register };
}

pub trait WriteBank: ReadBank {
    // What a bank holds besides its registers, which no write touches. Each function that writes says
    // so in a clause of its own: the definitions of the rules know registers only.
    ghost Rest: { Type 0 };

    ghost rest: { Self → Rest };

    // Makes a register hold the record of these fields, and leaves the others. Refuses a number
    // that no register has (1), then fields of no lawful record (2).
    // An impl with clauses of its own repeats these: its list takes their place.
    fn write(&mut self, register: usize, fields: &Fields<Self::Value>) -> Result<(), Refusal>
        ensures answer { numbered result ≡ write_answer (Self.cells self.old) register fields.now }
        ensures after { Self.cells self.new ≡ write_cells (Self.cells self.old) register fields.now }
        ensures size { length (Self.cells self.new) ≡ length (Self.cells self.old) }
        ensures rest { rest self.new ≡ rest self.old };
}
