// The hint that goes with a step, from a named leader or from a mask of suspects.
ghost use Rattle.std.specs.Prelude.{◌≡◌};
ghost use Rattle.calls.specs.Hints.{hint_of_leader, trusted_leader, Leads, hint_of_suspects};

#[derive(Clone, Copy, PartialEq, Eq, Debug)]
pub enum Hint {
    Go,
    Wait,
}

impl Hint {
    // Go for the leader alone.
    pub fn from_leader(leader: usize, worker: usize) -> Hint
        ensures { result ≡ hint_of_leader leader worker }
    {
        if leader == worker {
            Hint::Go
        } else {
            Hint::Wait
        }
    }

    // Go for the leader that the suspects leave, and wait for all where they leave none.
    pub fn from_suspects(suspects: u8, workers: usize, worker: usize) -> Hint
        ensures { result ≡ hint_of_suspects suspects workers worker }
    {
        trusted_leader(suspects, workers).map_or(
            Hint::Wait,
            |leader| Hint::from_leader(leader, worker),
        )
    }
}

// The least worker that is not suspected, if there is one. The bit of value 2^(j - 1) in
// `suspects` stands for worker j.
pub fn trusted_leader(suspects: u8, workers: usize) -> Option<usize>
    ensures value { result ≡ trusted_leader suspects workers }
    ensures least { Leads suspects workers result }
{
    // a cast that loses nothing: there is no `From` of `u32` into `usize`
    let leader = suspects.trailing_ones() as usize + 1;
    (leader <= workers).then_some(leader)
}
