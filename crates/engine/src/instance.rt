// The calls on an instance: a row of workers in the caller's memory, and a bank with a register for each.
// Both are lent for each call and no struct holds them, as the project's rules ask. That a refusal changes nothing is
// a clause of its own (`kept`) on each call, also by the rules.
ghost use Rattle.std.specs.Prelude.{◌≡◌, ◌<◌, length, IfOk};
ghost use Rattle.calls.specs.CallRefusals.{call_numbered};
ghost use Rattle.engine.specs.Steps.{row_answer, sizes_answer, place_answer, whole, step_whole};
ghost use Rattle.engine.specs.Instances.{fresh_states, blank_cells, open_whole, propose_row, tally_of};
ghost use Rattle.engine.specs.StepLaws.{StepLaw, OnlyUnreadable, RowKept, Kept};
ghost use Rattle.engine.specs.Rows.{states};
ghost use Rattle.engine.specs.Calls.{call_whole};

use super::worker::Worker;
use calls::call::{Answer, Call};
use calls::hint::Hint;
use calls::outcome::Effect;
use calls::refusal::CallRefusal;
use protocol::round::MAX_WORKERS;
use registers::bank::{WriteBank, index_of};
use registers::record::Record;

// The fewest workers of a row.
pub const MIN_WORKERS: usize = 2;

// Refuses (4) a row that is not 2 to 8 long.
fn check_row(total: usize) -> Result<(), CallRefusal>
    ensures { call_numbered result ≡ row_answer total }
{
    if (MIN_WORKERS..=MAX_WORKERS).contains(&total) {
        Ok(())
    } else {
        Err(CallRefusal::Size)
    }
}

// Refuses (4) a bank whose size is not 2 to 8 or not the number of workers.
fn check_sizes(size: usize, total: usize) -> Result<(), CallRefusal>
    ensures { call_numbered result ≡ sizes_answer size total }
{
    check_row(size)?;
    if size == total {
        Ok(())
    } else {
        Err(CallRefusal::Size)
    }
}

// The place of a worker in a row, from 0. Refuses (5) a number outside the row.
fn place(worker: usize, total: usize) -> Result<usize, CallRefusal>
    ensures value { call_numbered result ≡ place_answer worker total }
    ensures within { IfOk result (λ k. k < total) }
{
    index_of(worker, total).map_err(|_| CallRefusal::NoWorker)
}

// Puts a worker that has done nothing at every place.
fn renew<V: Copy>(workers: &mut [Worker<V>])
    ensures { states workers.new ≡ fresh_states (length workers.old) }
{
    let total = workers.len();
    for (i, worker) in workers.iter_mut().enumerate() {
        *worker = Worker::opened(i + 1, total);
    }
}

// Makes every register blank, whatever it held.
fn clear<V: Copy, B: WriteBank<Value = V>>(bank: &mut B)
    ensures cells { B.ReadBank.cells bank.new ≡ blank_cells (length (B.ReadBank.cells bank.old)) }
    ensures rest { B.rest bank.new ≡ B.rest bank.old }
{
    let size = bank.size();
    let blank = Record::blank().fields();
    for register in 1..=size {
        // the bank accepts it: the register stands, and the blank record is lawful
        let _ = bank.write(register, &blank);
    }
}

// Opens the instance: every register is blank, and every worker is new. Refuses (4) a bank whose
// size is not 2 to 8 or not the number of workers.
pub fn open<V: Copy, B: WriteBank<Value = V>>(
    workers: &mut [Worker<V>],
    bank: &mut B,
) -> Result<(), CallRefusal>
    ensures whole { whole result (states workers.new) (B.ReadBank.cells bank.new) ≡ open_whole (states workers.old) (B.ReadBank.cells bank.old) }
    ensures rest { B.rest bank.new ≡ B.rest bank.old }
    ensures kept { Kept (call_numbered result) (states workers.old) (states workers.new) (B.ReadBank.cells bank.old) (B.ReadBank.cells bank.new) }
{
    check_sizes(bank.size(), workers.len())?;
    renew(workers);
    clear(bank);
    Ok(())
}

// Gives a worker its proposal. Refuses a row that is not 2 to 8 long (4), a number outside the row
// (5), a worker that was not opened at that place of such a row (6), a crashed one (7), and one
// that has proposed (8).
pub fn propose<V: Copy>(
    workers: &mut [Worker<V>],
    worker: usize,
    value: V,
) -> Result<(), CallRefusal>
    ensures answer { call_numbered result ≡ (propose_row (states workers.old) worker value).answer }
    ensures workers { states workers.new ≡ (propose_row (states workers.old) worker value).states }
    ensures kept { RowKept (call_numbered result) (states workers.old) (states workers.new) }
{
    let total = workers.len();
    check_row(total)?;
    let place = place(worker, total)?;
    workers[place].propose(worker, total, value)
}

// One step of a worker, which reads one register or writes its own. Refuses as open does (4) and
// as propose does (5, 6, 7), then a worker without a proposal (9), one that has decided (10), a
// begin above the greatest round (11), and what the bank refuses (12).
pub fn step<V: Copy, B: WriteBank<Value = V>>(
    workers: &mut [Worker<V>],
    bank: &mut B,
    worker: usize,
    hint: Hint,
) -> Result<Effect<V>, CallRefusal>
    ensures whole { whole result (states workers.new) (B.ReadBank.cells bank.new) ≡ step_whole (states workers.old) (B.ReadBank.cells bank.old) worker hint }
    ensures rest { B.rest bank.new ≡ B.rest bank.old }
    ensures kept { Kept (call_numbered result) (states workers.old) (states workers.new) (B.ReadBank.cells bank.old) (B.ReadBank.cells bank.new) }
    ensures law { StepLaw worker (states workers.old) (states workers.new) (B.ReadBank.cells bank.old) (B.ReadBank.cells bank.new) }
    ensures unreadable { OnlyUnreadable (call_numbered result) (states workers.old) (B.ReadBank.cells bank.old) worker hint }
{
    let total = workers.len();
    check_sizes(bank.size(), total)?;
    let place = place(worker, total)?;
    workers[place].step(bank, worker, total, hint)
}

// One call of a list.
pub fn make<V: Copy, B: WriteBank<Value = V>>(
    workers: &mut [Worker<V>],
    bank: &mut B,
    call: Call<V>,
) -> Result<Answer<V>, CallRefusal>
    ensures whole { whole result (states workers.new) (B.ReadBank.cells bank.new) ≡ call_whole call (states workers.old) (B.ReadBank.cells bank.old) }
    ensures rest { B.rest bank.new ≡ B.rest bank.old }
    ensures kept { Kept (call_numbered result) (states workers.old) (states workers.new) (B.ReadBank.cells bank.old) (B.ReadBank.cells bank.new) }
{
    match call {
        Call::Propose { worker, value } => {
            propose(workers, worker, value)?;
            Ok(Answer::Proposed(value))
        }
        Call::Step { worker, hint } => {
            let effect = step(workers, bank, worker, hint)?;
            Ok(Answer::Stepped(effect))
        }
    }
}

// How many workers have decided, and how many have crashed; for a row of any length.
pub fn tally<V: Copy>(workers: &[Worker<V>]) -> (usize, usize)
    ensures { result ≡ tally_of (states workers.now) }
{
    let mut decided = 0;
    let mut crashed = 0;
    // a `for` loop, as the project's rules ask
    for worker in workers {
        decided += usize::from(worker.has_decided());
        crashed += usize::from(worker.has_crashed());
    }
    (decided, crashed)
}
