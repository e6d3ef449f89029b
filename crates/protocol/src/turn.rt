// What a worker makes of a record that it read: every read raises `seen` and adopts a decision. The register and what it
// held stay two parameters: a struct of both would be made for each read and taken apart at once.
ghost use Rattle.std.specs.Prelude.{◌≡◌};
ghost use Rattle.protocol.specs.Turns.{candidate_of, noticed, adoption, read_effect, greater, Onward, turn, watch_turn, first_turn, second_turn};

use super::state::{Phase, State};
use calls::outcome::{Effect, Outcome};
use registers::record::Fields;
use registers::tag::Tag;

// What the first collect leaves to put forward: the value that it kept, or else the proposal.
pub fn candidate<V: Copy>(kept: &Fields<V>, proposal: V) -> V
    ensures { result ≡ candidate_of kept.now proposal }
{
    kept.value.unwrap_or(proposal)
}

// Raises `seen`, and adopts the value of a decided record.
fn notice<V: Copy>(state: &mut State<V>, register: usize, fields: &Fields<V>) -> Option<Effect<V>>
    ensures state { state.new ≡ noticed state.old fields.now }
    ensures effect { result ≡ adoption register fields.now }
{
    state.seen = state.seen.max(fields.round);
    match (fields.tag, fields.value) {
        (Tag::Dec, Some(value)) => {
            state.phase = Phase::Decided { value };
            Some(Effect {
                outcome: Outcome::Adopted,
                register,
                round: fields.round,
                value: Some(value),
            })
        }
        _ => None,
    }
}

fn read_effect<V: Copy>(register: usize, fields: &Fields<V>) -> Effect<V>
    ensures { result ≡ read_effect register fields.now }
{
    Effect {
        outcome: Outcome::Read,
        register,
        round: fields.round,
        value: fields.value,
    }
}

// Of two records the one with the greater accepted round, the earlier one if they are equal.
fn greater<V: Copy>(kept: Fields<V>, fields: &Fields<V>) -> Fields<V>
    ensures { result ≡ greater kept fields.now }
{
    if fields.accepted > kept.accepted {
        *fields
    } else {
        kept
    }
}

// A collect has read a register. It goes on to the next one, or ends at the last: the worker has
// failed if it has seen a round above its own.
fn onward<V: Copy, F: FnOnce(usize) -> Phase<V>>(
    state: &mut State<V>,
    register: usize,
    fields: &Fields<V>,
    collected: Phase<V>,
    candidate: V,
    collecting: F,
) -> Effect<V>
    requires { F.IsAlwaysCallable collecting }
    ensures { Onward (F.post collecting) state.old register fields.now collected candidate state.new result }
{
    if register < state.total {
        state.phase = collecting(register + 1);
        read_effect(register, fields)
    } else if state.seen > state.own.round {
        state.phase = Phase::Idle;
        Effect {
            outcome: Outcome::Failed,
            register,
            round: state.seen,
            value: fields.value,
        }
    } else {
        state.phase = collected;
        Effect {
            outcome: Outcome::Ready,
            register,
            round: state.own.round,
            value: Some(candidate),
        }
    }
}

// An idle worker that waits has read the register at its watch place, which moves on.
pub fn watch_turn<V: Copy>(state: &mut State<V>, fields: &Fields<V>) -> Effect<V>
    ensures { turn state.new result ≡ watch_turn state.old fields.now }
{
    let register = state.watch;
    state.watch = if register < state.total {
        register + 1
    } else {
        1
    };
    notice(state, register, fields).unwrap_or_else(|| read_effect(register, fields))
}

// The first collect has read a register: it keeps the greatest accepted round.
pub fn first_turn<V: Copy>(
    state: &mut State<V>,
    register: usize,
    kept: Fields<V>,
    proposal: V,
    fields: &Fields<V>,
) -> Effect<V>
    ensures { turn state.new result ≡ first_turn state.old register kept proposal fields.now }
{
    if let Some(adopted) = notice(state, register, fields) {
        return adopted;
    }
    let kept = greater(kept, fields);
    let candidate = candidate(&kept, proposal);
    onward(
        state,
        register,
        fields,
        Phase::Ready { kept },
        candidate,
        |next| Phase::First { next, kept },
    )
}

// The second collect has read a register.
pub fn second_turn<V: Copy>(
    state: &mut State<V>,
    register: usize,
    candidate: V,
    fields: &Fields<V>,
) -> Effect<V>
    ensures { turn state.new result ≡ second_turn state.old register candidate fields.now }
{
    if let Some(adopted) = notice(state, register, fields) {
        return adopted;
    }
    let sure = Phase::Sure { candidate };
    onward(state, register, fields, sure, candidate, |next| {
        Phase::Second { next, candidate }
    })
}
