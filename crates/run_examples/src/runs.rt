// Whole runs: what the workers answer step by step, and what is in the box after them.
use batches::batch::Batch;
use blocks::block_bank::BlockBank;
use calls::hint::Hint;
use calls::outcome::{Effect, Outcome};
use calls::refusal::CallRefusal;
use choices::choice::Choice;
use engine::instance::{open, propose, step, tally};
use engine::worker::Worker;
use layers::window::Window;
use record_bank::RecordBank;
use registers::bank::WriteBank;
use registers::record::Record;
use report::view::view;
use std::process::Abort;
use std::test::Fail;

fn effect<V: Copy>(outcome: Outcome, register: usize, round: u32, value: Option<V>) -> Effect<V> {
    Effect {
        outcome,
        register,
        round,
        value,
    }
}

// Two workers with proposals 0 and 5, whatever the bank held before.
fn open_two<B: WriteBank<Value = Batch>>(
    rt: &impl Abort,
    workers: &mut [Worker<Batch>],
    bank: &mut B,
) {
    assert_eq!(rt; open(workers, bank), Ok(()));
    assert_eq!(rt; propose(workers, 1, Batch::new(0)), Ok(()));
    assert_eq!(rt; propose(workers, 2, Batch::new(5)), Ok(()));
}

// The outcome of the last of these steps, all with the hint to go.
fn go<B: WriteBank<Value = Batch>>(
    workers: &mut [Worker<Batch>],
    bank: &mut B,
    steps: &[usize],
) -> Option<Effect<Batch>> {
    let mut last = None;
    for worker in steps {
        last = step(workers, bank, *worker, Hint::Go).ok();
    }
    last
}

#[test]
fn the_value_with_the_greatest_accepted_round_is_taken_up(rt: HostRuntime) {
    let mut bytes = [0u8; 40];
    let mut bank = BlockBank::<Batch>::new(&mut bytes);
    let mut workers = [Worker::<Batch>::new(); 2];
    open_two(&rt, &mut workers, &mut bank);
    let order = [2usize, 2, 2, 1, 1, 1, 1, 1, 1, 2, 1, 1, 1, 2, 2, 2, 2, 2];
    let last = go(&mut workers, &mut bank, &order);
    assert_eq!(rt;
        last,
        Some(effect(Outcome::Ready, 2, 4, Some(Batch::new(0))))
    );
}

// Worker 2 puts 5 forward and halts; worker 1 takes it up.
fn take_up<B: WriteBank<Value = Batch>>(
    rt: &impl Abort,
    workers: &mut [Worker<Batch>],
    bank: &mut B,
) {
    for (worker, outcome, register, round, value) in [
        (1usize, Outcome::Begun, 1usize, 1u32, None),
        (1, Outcome::Read, 1, 1, None),
        (2, Outcome::Begun, 2, 2, None),
        (1, Outcome::Failed, 2, 2, None),
        (2, Outcome::Read, 1, 1, None),
        (2, Outcome::Ready, 2, 2, Some(Batch::new(5))),
        (2, Outcome::Put, 2, 2, Some(Batch::new(5))),
        (1, Outcome::Begun, 1, 3, None),
        (1, Outcome::Read, 1, 3, None),
        (1, Outcome::Ready, 2, 3, Some(Batch::new(5))),
        (1, Outcome::Put, 1, 3, Some(Batch::new(5))),
        (1, Outcome::Read, 1, 3, Some(Batch::new(5))),
        (1, Outcome::Ready, 2, 3, Some(Batch::new(5))),
        (1, Outcome::Decided, 1, 3, Some(Batch::new(5))),
    ] {
        let answer = step(workers, bank, worker, Hint::Go);
        assert_eq!(rt; answer, Ok(effect(outcome, register, round, value)));
    }
    assert_eq!(rt; tally(workers), (1, 0));
}

#[test]
fn a_put_value_outlives_its_worker(rt: HostRuntime) -> Result<(), Fail> {
    let mut bytes = [0xFFu8; 40];
    let mut bank = BlockBank::<Batch>::new(&mut bytes);
    let mut workers = [Worker::<Batch>::new(); 2];
    open_two(&rt, &mut workers, &mut bank);
    take_up(&rt, &mut workers, &mut bank);
    let shown = view::<Batch>(rt.alloc(), &bytes, None)?;
    assert_eq!(rt;
        shown.as_str(),
        "registers,2\n1,dec,3,3,5\n2,pro,2,2,5\ndecision,5\n"
    );
    Ok(())
}

// Worker 2 alone decides; worker 1, which only waits, adopts at its watch place.
fn settle_and_adopt<B: WriteBank<Value = Choice>>(
    rt: &impl Abort,
    workers: &mut [Worker<Choice>],
    bank: &mut B,
    choice: Choice,
    other: Choice,
) {
    assert_eq!(rt; open(workers, bank), Ok(()));
    assert_eq!(rt; propose(workers, 1, other), Ok(()));
    assert_eq!(rt; propose(workers, 2, choice), Ok(()));
    for _ in 0..8 {
        assert!(rt; step(workers, bank, 2, Hint::Go).is_ok());
    }
    assert_eq!(rt;
        step(workers, bank, 2, Hint::Wait),
        Ok(effect(Outcome::Decided, 2, 2, Some(choice)))
    );
    assert_eq!(rt;
        step(workers, bank, 1, Hint::Wait),
        Ok(effect(Outcome::Read, 1, 0, None))
    );
    assert_eq!(rt;
        step(workers, bank, 1, Hint::Wait),
        Ok(effect(Outcome::Adopted, 2, 2, Some(choice)))
    );
    assert_eq!(rt; tally(workers), (2, 0));
}

#[test]
fn a_decision_is_adopted_through_a_window(rt: HostRuntime) -> Result<(), Fail> {
    let choice = Choice::new(0, 7).ok_or_else(|| Fail::new("no choice"))?;
    let other = Choice::new(95, 1).ok_or_else(|| Fail::new("no choice"))?;
    let mut records = [Record::<Choice>::blank(); 5];
    let mut bank = Window::new(RecordBank::new(&mut records), 2, 3);
    let mut workers = [Worker::<Choice>::new(); 3];
    settle_and_adopt(&rt, &mut workers, &mut bank, choice, other);
    for (i, record) in records.iter().enumerate() {
        assert_eq!(rt; record.fields().round, if i == 2 { 2 } else { 0 });
    }
    Ok(())
}
