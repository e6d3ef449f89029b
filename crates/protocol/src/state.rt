// The state of a worker.
use registers::record::Fields;

#[derive(Clone, Copy, PartialEq, Eq, Debug)]
pub enum Phase<V> {
    // between two rounds
    Idle,
    // in the first collect, which reads register `next` next; `kept` has the greatest accepted
    // round that it met
    First { next: usize, kept: Fields<V> },
    // after the first collect
    Ready { kept: Fields<V> },
    // in the second collect, with the candidate put forward
    Second { next: usize, candidate: V },
    // after the second collect
    Sure { candidate: V },
    // a value was decided or adopted
    Decided { value: V },
}

#[derive(Clone, Copy, PartialEq, Eq, Debug)]
pub struct State<V> {
    // its place in the row, which is the number of its register too
    pub number: usize,
    // how many workers the row has
    pub total: usize,
    pub crashed: bool,
    pub proposal: Option<V>,
    // the greatest round that it has read or begun
    pub seen: u32,
    // what it wrote last
    pub own: Fields<V>,
    // the register that it reads next when it waits
    pub watch: usize,
    pub phase: Phase<V>,
}
