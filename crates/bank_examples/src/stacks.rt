// Layers on layers: a window on a permutation on a window, on records and on bytes, with both kinds.
use crate::banks::{only_block_changed, only_record_changed};
use batches::batch::Batch;
use blocks::block_bank::BlockBank;
use choices::choice::Choice;
use layers::permutation::Permutation;
use layers::permuted::Permuted;
use layers::window::Window;
use record_bank::RecordBank;
use registers::bank::{ReadBank, WriteBank};
use registers::decision::look_up;
use registers::record::{Fields, Record};
use registers::refusal::Refusal;
use registers::tag::Tag;
use std::process::Abort;
use std::test::Fail;

// Decides a value in register 2 of a bank of two, and reads it back.
fn decide_in_second<B: WriteBank>(rt: &impl Abort, bank: &mut B, value: B::Value) {
    let fields = Fields {
        round: 1,
        accepted: 1,
        tag: Tag::Dec,
        value: Some(value),
    };
    assert_eq!(rt; bank.size(), 2);
    assert_eq!(rt; bank.write(3, &fields), Err(Refusal::NoRegister));
    assert_eq!(rt; bank.write(2, &fields), Ok(()));
    assert!(rt; bank.read(2).is_ok());
}

#[test]
fn a_window_on_a_permutation_on_a_window_of_records(rt: HostRuntime) {
    let mut records = [Record::<Batch>::blank(); 5];
    let order = Permutation::new(&[2, 3, 1]);
    let inner = Window::new(RecordBank::new(&mut records), 2, 3);
    let mut stack = Window::new(Permuted::new(inner, &order), 2, 2);
    decide_in_second(&rt, &mut stack, Batch::new(5));
    assert_eq!(rt; look_up(&stack), Ok(Some(Batch::new(5))));
    stack.point(1, 2);
    assert_eq!(rt; look_up(&stack), Ok(None), "pointed away from the decision");
    // place 3 names register 1 of the inner window, which is record 2
    only_record_changed(&rt, &records, 1);
}

#[test]
fn the_same_stack_on_bytes_with_choices(rt: HostRuntime) -> Result<(), Fail> {
    let choice = Choice::new(7, 2).ok_or_else(|| Fail::new("unlawful"))?;
    let mut bytes = [0x4Eu8; 100];
    let order = Permutation::new(&[3, 1, 2]);
    let inner = Window::new(BlockBank::<Choice>::new(&mut bytes), 3, 3);
    let mut stack = Window::new(Permuted::new(inner, &order), 1, 2);
    decide_in_second(&rt, &mut stack, choice);
    let block = [
        0x44, 0, 0, 0, 0, 0, 0, 1, 0, 0, 0, 1, 0x43, 7, 0, 2, 0, 0, 0, 0,
    ];
    only_block_changed(&rt, &bytes, 2, &block);
    Ok(())
}

// The size of the first `size` of nine registers in the order of the list.
fn permuted_size(list: &[usize], size: usize) -> usize {
    let mut records = [Record::<Batch>::blank(); 9];
    let order = Permutation::new(list);
    Permuted::new(Window::new(RecordBank::new(&mut records), 1, size), &order).size()
}

#[test]
fn only_permutations_of_the_bank_below_have_registers(rt: HostRuntime) {
    let lists: [&[usize]; 4] = [&[2, 1], &[1, 1], &[0, 1], &[2, 3]];
    for (i, list) in lists.iter().enumerate() {
        assert_eq!(rt; permuted_size(list, 2), if i == 0 { 2 } else { 0 });
    }
    assert_eq!(rt;
        (permuted_size(&[2, 1], 1), permuted_size(&[2, 1], 3)),
        (0, 0)
    );
    assert_eq!(rt; permuted_size(&[], 0), 0);
    assert_eq!(rt; permuted_size(&[8, 7, 6, 5, 4, 3, 2, 1], 8), 8);
    assert_eq!(rt; permuted_size(&[9, 8, 7, 6, 5, 4, 3, 2, 1], 9), 0);
}

#[test]
fn windows_fit_to_the_last_register(rt: HostRuntime) {
    let mut records = [Record::<Batch>::blank(); 16];
    let mut window = Window::new(RecordBank::new(&mut records), 9, 8);
    assert_eq!(rt; window.size(), 8);
    for (first, count, size) in [
        (1usize, 16usize, 16usize),
        (10, 8, 0),
        (0, 8, 0),
        (9, 0, 0),
        (17, 1, 0),
        (18446744073709551615, 2, 0),
        (2, 18446744073709551615, 0),
    ] {
        window.point(first, count);
        assert_eq!(rt; window.size(), size);
    }
}
