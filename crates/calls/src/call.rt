// The calls on an open instance, and their answers.
use super::hint::Hint;
use super::outcome::Effect;

#[derive(Clone, Copy, PartialEq, Eq, Debug)]
pub enum Call<V> {
    Propose { worker: usize, value: V },
    Step { worker: usize, hint: Hint },
}

#[derive(Clone, Copy, PartialEq, Eq, Debug)]
pub enum Answer<V> {
    Opened,
    Proposed(V),
    Stepped(Effect<V>),
}
