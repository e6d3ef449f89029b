// Banks on caller's memory: at most 128 registers, and nothing beyond them is touched.
ghost use Rattle.std.specs.Prelude.{◌≡◌};
ghost use Rattle.batches.specs.BatchForms.{batch_image};
ghost use Rattle.blocks.specs.BlockCells.{write_bytes};
ghost use Rattle.record_bank.specs.RecordCells.{write_records};

use batches::batch::Batch;
use blocks::block_bank::BlockBank;
use blocks::image_bank::ImageBank;
use record_bank::RecordBank;
use registers::bank::{ReadBank, WriteBank};
use registers::decision::look_up;
use registers::record::{Fields, Record};
use registers::refusal::Refusal;
use registers::tag::Tag;
use std::process::Abort;
use std::test::Fail;

fn decided(round: u32) -> Fields<Batch> {
    Fields {
        round,
        accepted: round,
        tag: Tag::Dec,
        value: Some(Batch::new(9)),
    }
}

// A bank that is made and written inside a call leaves in the caller's memory just what it says.
fn write_records(records: &mut [Record<Batch>], register: usize, fields: &Fields<Batch>)
    ensures { records.new ≡ write_records records.old register fields.now }
{
    let _ = RecordBank::new(records).write(register, fields);
}

fn write_bytes(bytes: &mut [u8], register: usize, fields: &Fields<Batch>)
    ensures { bytes.new ≡ write_bytes batch_image bytes.old register fields.now }
{
    let _ = BlockBank::<Batch>::new(bytes).write(register, fields);
}

#[test]
fn a_caller_finds_what_was_written(rt: HostRuntime) {
    let mut records = [Record::<Batch>::blank(); 2];
    write_records(&mut records, 2, &decided(1));
    assert_eq!(rt; records[1].fields().round, 1);
    let mut bytes = [0u8; 41];
    write_bytes(&mut bytes, 2, &decided(1));
    assert_eq!(rt;
        (bytes[19], bytes[20], bytes[39], bytes[40]),
        (0, 0x44, 9, 0)
    );
}

// A bank of 128 registers is written at its edges, and at last in register 128.
fn write_at_the_edges<B: WriteBank<Value = Batch>>(rt: &impl Abort, bank: &mut B) {
    assert_eq!(rt; bank.size(), 128);
    for (register, round, answer) in [
        (0usize, 1u32, Err(Refusal::NoRegister)),
        (0, 0, Err(Refusal::NoRegister)),
        (129, 1, Err(Refusal::NoRegister)),
        (128, 0, Err(Refusal::Unlawful)),
        (128, 1, Ok(())),
    ] {
        assert_eq!(rt; bank.write(register, &decided(round)), answer);
    }
    assert!(rt; bank.read(128).is_ok() && bank.read(129).is_err());
}

// One block of the bytes is this one, and all others are as they were.
pub(crate) fn only_block_changed(rt: &impl Abort, bytes: &[u8], index: usize, block: &[u8; 20]) {
    for (i, part) in bytes.chunks(20).enumerate() {
        if i == index {
            assert!(rt; part == block.as_slice());
        } else {
            assert!(rt; part.iter().all(|byte| *byte == 0x4E));
        }
    }
}

// One record is of round 1, and all others are as they were.
pub(crate) fn only_record_changed(rt: &impl Abort, records: &[Record<Batch>], index: usize) {
    for (i, record) in records.iter().enumerate() {
        assert_eq!(rt; record.fields().round == 1, i == index);
    }
}

#[test]
fn bytes_hold_128_blocks_and_no_more(rt: HostRuntime) -> Result<(), Fail> {
    let mut bytes = vec![in rt.alloc(); 0x4Eu8; 2599]?;
    let mut bank = BlockBank::<Batch>::new(bytes.as_mut_slice());
    write_at_the_edges(&rt, &mut bank);
    assert_eq!(rt;
        look_up(&bank),
        Err(Refusal::Unreadable),
        "register 1 comes sooner"
    );
    let block = [
        0x44, 0, 0, 0, 0, 0, 0, 1, 0, 0, 0, 1, 0x42, 0, 0, 0, 0, 0, 0, 9,
    ];
    only_block_changed(&rt, bytes.as_slice(), 127, &block);
    Ok(())
}

#[test]
fn records_hold_128_registers_and_no_more(rt: HostRuntime) {
    let mut records = [Record::<Batch>::blank(); 130];
    let mut bank = RecordBank::new(&mut records);
    assert_eq!(rt; look_up(&bank), Ok(None));
    write_at_the_edges(&rt, &mut bank);
    assert_eq!(rt; look_up(&bank), Ok(Some(Batch::new(9))));
    only_record_changed(&rt, &records, 127);
}

fn image_size(bytes: &[u8], len: usize) -> usize {
    if len > bytes.len() {
        return 0;
    }
    ImageBank::<Batch>::new(&bytes[0..len]).size()
}

#[test]
fn a_part_of_a_block_is_no_register(rt: HostRuntime) -> Result<(), Fail> {
    let bytes = vec![in rt.alloc(); 0u8; 2599]?;
    let bytes = bytes.as_slice();
    for (len, size) in [
        (0usize, 0usize),
        (19, 0),
        (20, 1),
        (59, 2),
        (2559, 127),
        (2599, 128),
    ] {
        assert_eq!(rt; image_size(bytes, len), size);
    }
    Ok(())
}
