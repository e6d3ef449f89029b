// Every refusal of a call, and that the workers and the bytes are as they were after it.
use batches::batch::Batch;
use blocks::block_bank::BlockBank;
use calls::call::Call;
use calls::hint::Hint;
use calls::refusal::CallRefusal;
use engine::instance::{make, open};
use engine::worker::Worker;
use registers::bank::WriteBank;
use registers::record::Fields;
use registers::tag::Tag;
use std::process::Abort;

// What answers a call; no call stands for an open.
fn answer(
    workers: &mut [Worker<Batch>],
    bytes: &mut [u8],
    call: Option<Call<Batch>>,
) -> Result<(), CallRefusal> {
    let mut bank = BlockBank::<Batch>::new(bytes);
    match call {
        None => open(workers, &mut bank),
        Some(call) => make(workers, &mut bank, call).map(|_| ()),
    }
}

// The same on the first workers of a row and the first registers of a box, if there are so many.
fn answer_on(
    row: &mut [Worker<Batch>],
    workers: usize,
    bytes: &mut [u8],
    registers: usize,
    call: Option<Call<Batch>>,
) -> Option<Result<(), CallRefusal>> {
    if workers > row.len() || registers > bytes.len() / 20 {
        return None;
    }
    Some(answer(&mut row[..workers], &mut bytes[..20 * registers], call))
}

fn step(worker: usize, hint: Hint) -> Option<Call<Batch>> {
    Some(Call::Step { worker, hint })
}

fn go(worker: usize) -> Option<Call<Batch>> {
    step(worker, Hint::Go)
}

fn five(worker: usize) -> Option<Call<Batch>> {
    Some(Call::Propose {
        worker,
        value: Batch::new(5),
    })
}

// A call on the first workers of the row and the first registers of the box is refused, and leaves all as it was.
fn refused(
    rt: &impl Abort,
    row: &[Worker<Batch>; 3],
    workers: usize,
    image: &[u8; 60],
    registers: usize,
    call: Option<Call<Batch>>,
    number: u8,
    why: &str,
) {
    let mut after = *row;
    let mut bytes = *image;
    let answer = answer_on(&mut after, workers, &mut bytes, registers, call);
    let refusal = answer.and_then(|answer| answer.err());
    assert_eq!(rt; refusal.map(u8::from), Some(number), "{why}");
    assert!(rt; after == *row, "the workers are as they were: {why}");
    assert!(rt; bytes == *image, "the bytes are as they were: {why}");
}

// The calls of a list, all accepted, on the first two workers and registers.
fn accepted(
    rt: &impl Abort,
    row: &mut [Worker<Batch>],
    bytes: &mut [u8],
    calls: &[Option<Call<Batch>>],
) {
    for call in calls {
        assert_eq!(rt; answer_on(row, 2, bytes, 2, *call), Some(Ok(())));
    }
}

#[test]
fn sizes_places_and_proposals(rt: HostRuntime) {
    let mut row = [Worker::<Batch>::new(); 3];
    let mut bytes = [0u8; 60];
    accepted(&rt, &mut row, &mut bytes, &[None, five(2)]);
    for (workers, registers, call, number) in [
        (2usize, 3usize, None, 4u8),
        (1, 1, None, 4),
        (2, 3, go(1), 4),
        (1, 1, five(1), 4),
        (2, 2, five(0), 5),
        (2, 2, five(3), 5),
        (2, 2, go(0), 5),
        (2, 2, go(3), 5),
        (3, 3, five(1), 6),
        (3, 3, go(2), 6),
        (2, 2, five(2), 8),
        (2, 2, go(1), 9),
    ] {
        refused(
            &rt,
            &row,
            workers,
            &bytes,
            registers,
            call,
            number,
            "a size, a place or a proposal",
        );
    }
}

#[test]
fn workers_in_another_place(rt: HostRuntime) {
    let mut row = [Worker::<Batch>::new(); 3];
    let mut bytes = [0u8; 60];
    refused(&rt, &row, 2, &bytes, 2, five(1), 6, "never opened");
    accepted(&rt, &mut row, &mut bytes, &[None, five(1), five(2)]);
    let first = row[0];
    row[0] = row[1];
    row[1] = first;
    refused(&rt, &row, 2, &bytes, 2, five(1), 6, "swapped");
    refused(&rt, &row, 2, &bytes, 2, go(2), 6, "swapped");
}

#[test]
fn steps_that_cannot_be_taken(rt: HostRuntime) {
    let mut row = [Worker::<Batch>::new(); 3];
    let mut bytes = [0u8; 60];
    accepted(&rt, &mut row, &mut bytes, &[None, five(1), five(2)]);
    let mut damaged = bytes;
    damaged[0] = 0;
    refused(
        &rt,
        &row,
        2,
        &damaged,
        2,
        step(1, Hint::Wait),
        12,
        "an unreadable register",
    );
    let highest = Fields {
        round: 1_000_000_000,
        accepted: 0,
        tag: Tag::None,
        value: None,
    };
    assert!(rt;
        BlockBank::<Batch>::new(&mut bytes)
            .write(2, &highest)
            .is_ok()
    );
    accepted(
        &rt,
        &mut row,
        &mut bytes,
        &[step(1, Hint::Wait), step(1, Hint::Wait)],
    );
    refused(&rt, &row, 2, &bytes, 2, go(1), 11, "no higher round");
    accepted(&rt, &mut row, &mut bytes, &[None, five(1)]);
    accepted(
        &rt,
        &mut row,
        &mut bytes,
        &[go(1), go(1), go(1), go(1), go(1), go(1), go(1)],
    );
    refused(&rt, &row, 2, &bytes, 2, go(1), 10, "decided");
}
