// Registers in a slice of bytes, one for each whole block: how many there are, and one of them read or written.
ghost use Rattle.std.specs.Prelude.{◌≡◌, length};
ghost use Rattle.registers.specs.Cells.{read_answer, write_answer, write_cells};
ghost use Rattle.registers.specs.Refusals.{numbered};
ghost use Rattle.blocks.specs.BlockCells.{block_count, block_cells, write_bytes, rest_bytes};

use super::block::{BLOCK_LEN, decode, encode};
use kinds::kind::Kind;
use registers::bank::{MAX_REGISTERS, index_of};
use registers::record::{Fields, Record};
use registers::refusal::Refusal;

pub(crate) fn count<K: Kind>(bytes: &[u8]) -> usize
    ensures cells { result ≡ length (block_cells K.Kind.of_image bytes.now) }
    ensures blocks { result ≡ block_count (length bytes.now) }
{
    (bytes.len() / BLOCK_LEN).min(MAX_REGISTERS)
}

pub(crate) fn fetch<K: Kind>(bytes: &[u8], register: usize) -> Result<Record<K>, Refusal>
    ensures { numbered result ≡ read_answer (block_cells K.Kind.of_image bytes.now) register }
{
    let at = BLOCK_LEN * index_of(register, count::<K>(bytes))?;
    decode(&bytes[at..at + BLOCK_LEN]).ok_or(Refusal::Unreadable)
}

pub(crate) fn store<K: Kind>(
    bytes: &mut [u8],
    register: usize,
    fields: &Fields<K>,
) -> Result<(), Refusal>
    ensures answer { numbered result ≡ write_answer (block_cells K.Kind.of_image bytes.old) register fields.now }
    ensures bytes { bytes.new ≡ write_bytes K.Kind.image_of bytes.old register fields.now }
    ensures after { block_cells K.Kind.of_image bytes.new ≡ write_cells (block_cells K.Kind.of_image bytes.old) register fields.now }
    ensures size { length (block_cells K.Kind.of_image bytes.new) ≡ length (block_cells K.Kind.of_image bytes.old) }
    ensures rest { rest_bytes bytes.new ≡ rest_bytes bytes.old }
{
    let at = BLOCK_LEN * index_of(register, count::<K>(bytes))?;
    let item = Record::new(*fields).ok_or(Refusal::Unlawful)?;
    bytes[at..at + BLOCK_LEN].copy_from_slice(&encode(&item));
    Ok(())
}
