// What a worker does in one step: it reads one register or writes its own. Its state and the bank are lent apart and no
// struct holds them, since a row has many workers and one bank.
#![tactic(auto)]

ghost use Rattle.std.specs.Prelude.{◌≡◌};
ghost use Rattle.actions.specs.Actions.{left, stored, begun, offered, taken};

use calls::hint::Hint;
use calls::outcome::{Effect, Outcome};
use calls::refusal::CallRefusal;
use protocol::round::next_round;
use protocol::state::{Phase, State};
use protocol::turn::{candidate, first_turn, second_turn, watch_turn};
use registers::bank::WriteBank;
use registers::record::{Fields, Record};
use registers::tag::Tag;

// Writes the worker's own register; the worker has seen what it wrote.
fn store<V: Copy, B: WriteBank<Value = V>>(
    state: &mut State<V>,
    bank: &mut B,
    fields: &Fields<V>,
    next: Phase<V>,
    outcome: Outcome,
) -> Result<Effect<V>, CallRefusal>
    ensures after { left result state.new (B.ReadBank.cells bank.new) ≡ stored state.old (B.ReadBank.cells bank.old) fields.now next outcome }
    ensures rest { B.rest bank.new ≡ B.rest bank.old }
{
    let register = state.number;
    bank.write(register, fields)?;
    state.seen = state.seen.max(fields.round);
    state.own = *fields;
    state.phase = next;
    Ok(Effect {
        outcome,
        register,
        round: fields.round,
        value: fields.value,
    })
}

// Begins a new round, and keeps in the register what was accepted before.
fn begin<V: Copy, B: WriteBank<Value = V>>(
    state: &mut State<V>,
    bank: &mut B,
) -> Result<Effect<V>, CallRefusal>
    ensures after { left result state.new (B.ReadBank.cells bank.new) ≡ begun state.old (B.ReadBank.cells bank.old) }
    ensures rest { B.rest bank.new ≡ B.rest bank.old }
{
    let round = next_round(state.seen, state.number, state.total).ok_or(CallRefusal::RoundLimit)?;
    let fields = Fields { round, ..state.own };
    let kept = Record::blank().fields();
    store(
        state,
        bank,
        &fields,
        Phase::First { next: 1, kept },
        Outcome::Begun,
    )
}

// Writes the candidate under the worker's round.
fn offer<V: Copy, B: WriteBank<Value = V>>(
    state: &mut State<V>,
    bank: &mut B,
    tag: Tag,
    candidate: V,
    next: Phase<V>,
    outcome: Outcome,
) -> Result<Effect<V>, CallRefusal>
    ensures after { left result state.new (B.ReadBank.cells bank.new) ≡ offered state.old (B.ReadBank.cells bank.old) tag candidate next outcome }
    ensures rest { B.rest bank.new ≡ B.rest bank.old }
{
    let round = state.own.round;
    let fields = Fields {
        round,
        accepted: round,
        tag,
        value: Some(candidate),
    };
    store(state, bank, &fields, next, outcome)
}

// The step of a worker that has proposed and not crashed.
pub fn act<V: Copy, B: WriteBank<Value = V>>(
    state: &mut State<V>,
    bank: &mut B,
    proposal: V,
    hint: Hint,
) -> Result<Effect<V>, CallRefusal>
    ensures after { left result state.new (B.ReadBank.cells bank.new) ≡ taken hint state.old (B.ReadBank.cells bank.old) proposal }
    ensures rest { B.rest bank.new ≡ B.rest bank.old }
{
    // phase and hint are matched together and in place, as the project's rules ask
    match (&state.phase, hint) {
        (Phase::Idle, Hint::Go) => begin(state, bank),
        (Phase::Idle, Hint::Wait) => {
            let record = bank.read(state.watch)?;
            Ok(watch_turn(state, &record.fields()))
        }
        (&Phase::First { next, kept }, _) => {
            let record = bank.read(next)?;
            Ok(first_turn(state, next, kept, proposal, &record.fields()))
        }
        (&Phase::Ready { kept }, _) => {
            let candidate = candidate(&kept, proposal);
            let next = Phase::Second { next: 1, candidate };
            offer(state, bank, Tag::Pro, candidate, next, Outcome::Put)
        }
        (&Phase::Second { next, candidate }, _) => {
            let record = bank.read(next)?;
            Ok(second_turn(state, next, candidate, &record.fields()))
        }
        (&Phase::Sure { candidate }, _) => {
            let next = Phase::Decided { value: candidate };
            offer(state, bank, Tag::Dec, candidate, next, Outcome::Decided)
        }
        (Phase::Decided { .. }, _) => Err(CallRefusal::Decided),
    }
}
