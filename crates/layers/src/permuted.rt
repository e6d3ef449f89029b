// The registers of a bank in another order, as a bank of their own.
ghost use Rattle.std.specs.Prelude.{◌≡◌, length};
ghost use Rattle.registers.specs.Cells.{write_answer, write_cells};
ghost use Rattle.registers.specs.Refusals.{numbered};
ghost use Rattle.layers.specs.Below.{write_below};
ghost use Rattle.layers.specs.Permuting.{named, permuted_place, permuted_cells, PermutedRest, permuted_rest};

use super::permutation::Permutation;
use registers::bank::{ReadBank, WriteBank};
use registers::record::{Fields, Record};
use registers::refusal::Refusal;

// Register j is the j-th one that the permutation names. Over a bank of another size than the
// permutation's there is no register. The permutation is lent: tried by value, and then no window on
// this layer over lent memory proves.
#[derive(Drop)]
pub struct Permuted<'o, B> {
    below: B,
    order: &'o Permutation,
}

impl<'o, B> Permuted<'o, B> {
    pub fn new(below: B, order: &'o Permutation) -> Permuted<'o, B>
        ensures below { result.below ≡ below }
        ensures order { result.order.now ≡ order.now }
    {
        Permuted { below, order }
    }
}

impl<'o, B: ReadBank> ReadBank for Permuted<'o, B> {
    type Value = B::Value;

    ghost cells = { λ w. permuted_cells (B.cells w.below) (named w.order.now) };

    fn size(&self) -> usize {
        self.order.extent(self.below.size())
    }

    fn read(&self, register: usize) -> Result<Record<B::Value>, Refusal> {
        let at = self.order.place(self.below.size(), register)?;
        self.below.read(at)
    }
}

impl<'o, B: WriteBank> WriteBank for Permuted<'o, B> {
    ghost Rest = { PermutedRest B.Value B.Rest };

    ghost rest = { λ w. permuted_rest (B.cells w.below) (named w.order.now) (B.rest w.below) };

    fn write(&mut self, register: usize, fields: &Fields<B::Value>) -> Result<(), Refusal>
        ensures answer { numbered result ≡ write_answer (⟦<Permuted<'o, B> as ReadBank>⟧.cells self.old) register fields.now }
        ensures after { ⟦<Permuted<'o, B> as ReadBank>⟧.cells self.new ≡ write_cells (⟦<Permuted<'o, B> as ReadBank>⟧.cells self.old) register fields.now }
        ensures size { length (⟦<Permuted<'o, B> as ReadBank>⟧.cells self.new) ≡ length (⟦<Permuted<'o, B> as ReadBank>⟧.cells self.old) }
        ensures rest { ⟦<Permuted<'o, B> as WriteBank>⟧.rest self.new ≡ ⟦<Permuted<'o, B> as WriteBank>⟧.rest self.old }
        ensures below { B.cells self.new.below ≡ write_below (permuted_place (named self.old.order.now) (length (B.cells self.old.below)) register) (B.cells self.old.below) fields.now }
    {
        let at = self.order.place(self.below.size(), register)?;
        self.below.write(at, fields)
    }
}
