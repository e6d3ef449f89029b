// A bank on the caller's bytes.
ghost use Rattle.std.specs.Prelude.{◌≡◌, length};
ghost use Rattle.registers.specs.Cells.{write_answer, write_cells};
ghost use Rattle.registers.specs.Refusals.{numbered};
ghost use Rattle.blocks.specs.BlockCells.{block_cells, write_bytes, BlockRest, block_rest};

use super::bytes::{count, fetch, store};
use kinds::kind::Kind;
use registers::bank::{ReadBank, WriteBank};
use registers::record::{Fields, Record};
use registers::refusal::Refusal;
use std::marker::PhantomData;

// One register for each whole block, at most 128; what lies beyond is never touched.
#[derive(Drop)]
pub struct BlockBank<'a, K> {
    bytes: &'a mut [u8],
    kind: PhantomData<K>,
}

impl<'a, K: Kind> BlockBank<'a, K> {
    // The bank holds the caller's loan itself (`lent`), so what it holds last is what the caller finds.
    pub fn new(bytes: &'a mut [u8]) -> BlockBank<'a, K>
        ensures value { result.bytes.now ≡ bytes.old }
        ensures lent { result.bytes.ghost_name ≡ bytes.entry.ghost_name }
    {
        BlockBank {
            bytes,
            kind: PhantomData,
        }
    }
}

impl<'a, K: Kind> ReadBank for BlockBank<'a, K> {
    type Value = K;

    ghost cells = { λ b. block_cells K.Kind.of_image b.bytes.now };

    fn size(&self) -> usize {
        count::<K>(self.bytes)
    }

    fn read(&self, register: usize) -> Result<Record<K>, Refusal> {
        fetch(self.bytes, register)
    }
}

impl<'a, K: Kind> WriteBank for BlockBank<'a, K> {
    ghost Rest = { BlockRest };

    ghost rest = { λ b. block_rest b.bytes };

    fn write(&mut self, register: usize, fields: &Fields<K>) -> Result<(), Refusal>
        ensures answer { numbered result ≡ write_answer (block_cells K.Kind.of_image self.old.bytes.now) register fields.now }
        ensures after { block_cells K.Kind.of_image self.new.bytes.now ≡ write_cells (block_cells K.Kind.of_image self.old.bytes.now) register fields.now }
        ensures size { length (block_cells K.Kind.of_image self.new.bytes.now) ≡ length (block_cells K.Kind.of_image self.old.bytes.now) }
        ensures rest { block_rest self.new.bytes ≡ block_rest self.old.bytes }
        ensures lent { self.new.bytes.ghost_name ≡ self.old.bytes.ghost_name }
        ensures bytes { self.new.bytes.now ≡ write_bytes K.Kind.image_of self.old.bytes.now register fields.now }
    {
        store(self.bytes, register, fields)
    }
}
