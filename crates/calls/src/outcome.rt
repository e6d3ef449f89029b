// What an accepted step did.
ghost use Rattle.std.specs.Prelude.{◌≡◌, Some};
ghost use Rattle.calls.specs.Outcomes.{outcome_word};

use std::fmt;

#[derive(Clone, Copy, PartialEq, Eq, Debug)]
pub enum Outcome {
    // a new round was written
    Begun,
    // a register was read, and the collect goes on
    Read,
    // a collect ended above the worker's round
    Failed,
    // a collect ended, and the worker can write its candidate
    Ready,
    // the candidate was put forward
    Put,
    // a decided record was read
    Adopted,
    // the candidate was written as decided
    Decided,
}

impl Outcome {
    // The word by which users know the outcome.
    pub fn word(self) -> &'static str
        ensures { result.now ≡ outcome_word self }
    {
        match self {
            Outcome::Begun => "begun",
            Outcome::Read => "read",
            Outcome::Failed => "failed",
            Outcome::Ready => "ready",
            Outcome::Put => "put",
            Outcome::Adopted => "adopted",
            Outcome::Decided => "decided",
        }
    }
}

impl fmt::Display for Outcome {
    ghost output = { λ outcome. Some (outcome_word outcome) };

    fn fmt<W: fmt::Write>(&self, f: &mut fmt::Formatter<W>) -> fmt::Result {
        f.write_str(self.word())
    }
}

// The register that was read or written, and the round and the value that go with the outcome.
#[derive(Clone, Copy, PartialEq, Eq, Debug)]
pub struct Effect<V> {
    pub outcome: Outcome,
    pub register: usize,
    pub round: u32,
    pub value: Option<V>,
}
