// Making workers, and what one worker does in a call. A struct of its number and the row's length is no plainer: the state
// has them as two public fields, and each use would take the struct apart.
ghost use Rattle.std.specs.Prelude.{◌≡◌, ◌≤◌};
ghost use Rattle.calls.specs.CallRefusals.{call_numbered};
ghost use Rattle.actions.specs.Actions.{left};
ghost use Rattle.engine.specs.Steps.{fit_answer, worker_step};
ghost use Rattle.engine.specs.Instances.{fresh, worker_propose, has_decided};

use super::Worker;
use actions::act;
use calls::hint::Hint;
use calls::outcome::Effect;
use calls::refusal::CallRefusal;
use protocol::state::{Phase, State};
use registers::bank::WriteBank;
use registers::record::Record;

impl<V: Copy> Worker<V> {
    // A worker that no call accepts until its row is opened: it counts as the one worker of a row
    // of one, and no row is so short.
    pub fn new() -> Worker<V>
        ensures { result.state ≡ fresh 1 1 }
    {
        Worker::opened(1, 1)
    }

    // The worker that opening puts at a place.
    pub(crate) fn opened(number: usize, total: usize) -> Worker<V>
        requires { (1 ≤ number) × (number ≤ total) }
        ensures { result.state ≡ fresh number total }
    {
        Worker {
            state: State {
                number,
                total,
                crashed: false,
                proposal: None,
                seen: 0,
                own: Record::blank().fields(),
                watch: 1,
                phase: Phase::Idle,
            },
        }
    }

    // What the worker knows, for whoever wants to show it.
    pub fn state(&self) -> State<V>
        ensures { result ≡ self.now.state }
    {
        let Worker { state, .. } = *self;
        state
    }

    pub(crate) fn has_decided(&self) -> bool
        ensures { result ≡ has_decided self.now.state.phase }
    {
        matches!(self.state.phase, Phase::Decided { .. })
    }

    pub(crate) fn has_crashed(&self) -> bool
        ensures { result ≡ self.now.state.crashed }
    {
        self.state.crashed
    }

    // Refuses a worker that was not opened at place `number` of `total`, and a crashed one.
    fn check(&self, number: usize, total: usize) -> Result<(), CallRefusal>
        ensures { call_numbered result ≡ fit_answer self.now.state number total }
    {
        if self.state.number != number || self.state.total != total {
            return Err(CallRefusal::Misplaced);
        }
        if self.state.crashed {
            return Err(CallRefusal::Crashed);
        }
        Ok(())
    }

    // The proposal of the worker at place `number` of `total`.
    pub(crate) fn propose(
        &mut self,
        number: usize,
        total: usize,
        value: V,
    ) -> Result<(), CallRefusal>
        ensures answer { call_numbered result ≡ (worker_propose self.old.state number total value).answer }
        ensures state { self.new.state ≡ (worker_propose self.old.state number total value).state }
    {
        self.check(number, total)?;
        if self.state.proposal.is_some() {
            return Err(CallRefusal::Proposed);
        }
        self.state.proposal = Some(value);
        Ok(())
    }

    // The step of the worker at place `number` of `total`.
    pub(crate) fn step<B: WriteBank<Value = V>>(
        &mut self,
        bank: &mut B,
        number: usize,
        total: usize,
        hint: Hint,
    ) -> Result<Effect<V>, CallRefusal>
        ensures after { left result self.new.state (B.ReadBank.cells bank.new) ≡ worker_step hint self.old.state number total (B.ReadBank.cells bank.old) }
        ensures rest { B.rest bank.new ≡ B.rest bank.old }
    {
        self.check(number, total)?;
        let proposal = self.state.proposal.ok_or(CallRefusal::NoProposal)?;
        act(&mut self.state, bank, proposal, hint)
    }
}
