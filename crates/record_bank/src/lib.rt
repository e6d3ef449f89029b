// A bank on the caller's records.
#![tactic(auto)]

ghost use Rattle.std.specs.Prelude.{◌≡◌, length, drop};
ghost use Rattle.registers.specs.Refusals.{numbered};
ghost use Rattle.registers.specs.Cells.{read_answer, write_answer, write_cells, max_registers};
ghost use Rattle.record_bank.specs.RecordCells.{record_cells, write_records, RecordRest, record_rest};

use registers::bank::{MAX_REGISTERS, ReadBank, WriteBank, index_of};
use registers::record::{Fields, Record};
use registers::refusal::Refusal;

// One register for each record, at most 128; what lies beyond is never touched.
#[derive(Drop)]
pub struct RecordBank<'a, V> {
    records: &'a mut [Record<V>],
}

impl<'a, V: Copy> RecordBank<'a, V> {
    // The bank holds the caller's loan itself (`lent`), so what it holds last is what the caller finds.
    pub fn new(records: &'a mut [Record<V>]) -> RecordBank<'a, V>
        ensures value { result.records.now ≡ records.old }
        ensures lent { result.records.ghost_name ≡ records.entry.ghost_name }
    {
        RecordBank { records }
    }
}

fn count<V: Copy>(records: &[Record<V>]) -> usize
    ensures { result ≡ length (record_cells records.now) }
{
    records.len().min(MAX_REGISTERS)
}

fn fetch<V: Copy>(records: &[Record<V>], register: usize) -> Result<Record<V>, Refusal>
    ensures { numbered result ≡ read_answer (record_cells records.now) register }
{
    let at = index_of(register, count(records))?;
    Ok(records[at])
}

fn store<V: Copy>(
    records: &mut [Record<V>],
    register: usize,
    fields: &Fields<V>,
) -> Result<(), Refusal>
    ensures answer { numbered result ≡ write_answer (record_cells records.old) register fields.now }
    ensures records { records.new ≡ write_records records.old register fields.now }
    ensures after { record_cells records.new ≡ write_cells (record_cells records.old) register fields.now }
    ensures size { length (record_cells records.new) ≡ length (record_cells records.old) }
    ensures rest { drop max_registers records.new ≡ drop max_registers records.old }
{
    let at = index_of(register, count(records))?;
    records[at] = Record::new(*fields).ok_or(Refusal::Unlawful)?;
    Ok(())
}

impl<'a, V: Copy> ReadBank for RecordBank<'a, V> {
    type Value = V;

    ghost cells = { λ b. record_cells b.records.now };

    fn size(&self) -> usize {
        count(self.records)
    }

    fn read(&self, register: usize) -> Result<Record<V>, Refusal> {
        fetch(self.records, register)
    }
}

impl<'a, V: Copy> WriteBank for RecordBank<'a, V> {
    ghost Rest = { RecordRest V };

    ghost rest = { λ b. record_rest b.records };

    fn write(&mut self, register: usize, fields: &Fields<V>) -> Result<(), Refusal>
        ensures answer { numbered result ≡ write_answer (record_cells self.old.records.now) register fields.now }
        ensures after { record_cells self.new.records.now ≡ write_cells (record_cells self.old.records.now) register fields.now }
        ensures size { length (record_cells self.new.records.now) ≡ length (record_cells self.old.records.now) }
        ensures rest { record_rest self.new.records ≡ record_rest self.old.records }
        ensures lent { self.new.records.ghost_name ≡ self.old.records.ghost_name }
        ensures records { self.new.records.now ≡ write_records self.old.records.now register fields.now }
    {
        store(self.records, register, fields)
    }
}
