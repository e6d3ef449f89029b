// Why a call is refused.
ghost use Rattle.std.specs.Prelude.{◌≡◌};
ghost use Rattle.calls.specs.declared.refusal.CallRefusal.TheVariants.{Bank};
ghost use Rattle.registers.specs.Refusals.{Numbers};
ghost use Rattle.calls.specs.CallRefusals.{call_refusal_number};

use registers::refusal::Refusal;

#[derive(Clone, Copy, PartialEq, Eq, Debug)]
pub enum CallRefusal {
    // not 2 to 8 workers, or another number of registers
    Size,
    // a number that no worker has
    NoWorker,
    // a worker that was not opened at this place of a row of this length
    Misplaced,
    // a worker that has crashed
    Crashed,
    // a second proposal
    Proposed,
    // a step without a proposal
    NoProposal,
    // a step of a worker that has decided
    Decided,
    // a round above the greatest
    RoundLimit,
    // the bank refuses
    Bank,
}

// The number by which users know the refusal; no two have the same. Contracts compare answers by
// this number and not by the case, since the rules are in numbers.
impl From<CallRefusal> for u8 {
    ghost from_gives = { Numbers call_refusal_number };

    fn from(refusal: CallRefusal) -> u8 {
        match refusal {
            CallRefusal::Size => 4,
            CallRefusal::NoWorker => 5,
            CallRefusal::Misplaced => 6,
            CallRefusal::Crashed => 7,
            CallRefusal::Proposed => 8,
            CallRefusal::NoProposal => 9,
            CallRefusal::Decided => 10,
            CallRefusal::RoundLimit => 11,
            CallRefusal::Bank => 12,
        }
    }
}

// Whatever a bank refuses, the call is refused for it.
impl From<Refusal> for CallRefusal {
    ghost from_gives = { λ _ refusal. refusal ≡ Bank };

    fn from(_refusal: Refusal) -> CallRefusal {
        Self::Bank
    }
}
