// A bank on bytes that nobody writes, with the reading side only.
ghost use Rattle.std.specs.Prelude.{◌≡◌};
ghost use Rattle.blocks.specs.BlockCells.{block_cells};

use super::bytes::{count, fetch};
use kinds::kind::Kind;
use registers::bank::ReadBank;
use registers::record::Record;
use registers::refusal::Refusal;
use std::marker::PhantomData;

// One register for each whole block, at most 128. Beside BlockBank it has the reading side once more:
// one type over both loans is no plainer, since it would need a trait of loans.
#[derive(Drop)]
pub struct ImageBank<'a, K> {
    bytes: &'a [u8],
    kind: PhantomData<K>,
}

impl<'a, K: Kind> ImageBank<'a, K> {
    pub fn new(bytes: &'a [u8]) -> ImageBank<'a, K>
        ensures { result.bytes.now ≡ bytes.now }
    {
        ImageBank {
            bytes,
            kind: PhantomData,
        }
    }
}

impl<'a, K: Kind> ReadBank for ImageBank<'a, K> {
    type Value = K;

    ghost cells = { λ b. block_cells K.Kind.of_image b.bytes.now };

    fn size(&self) -> usize {
        count::<K>(self.bytes)
    }

    fn read(&self, register: usize) -> Result<Record<K>, Refusal> {
        fetch(self.bytes, register)
    }
}
