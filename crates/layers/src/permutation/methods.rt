// Making a permutation from a list, and looking up a place in it.
ghost use Rattle.std.specs.Prelude.{◌≡◌};
ghost use Rattle.std.specs.Option.{ok_or};
ghost use Rattle.registers.specs.Refusals.{numbered, refusal_number};
ghost use Rattle.registers.specs.declared.refusal.Refusal.TheVariants.{NoRegister};
ghost use Rattle.layers.specs.Permutations.{times, each_once, kept_list, Permutes};
ghost use Rattle.layers.specs.Permuting.{named, permuted_size, permuted_place};

use super::{MAX_PERMUTED, Permutation};
use registers::bank::index_of;
use registers::refusal::Refusal;

// How often the list names the register. A loop, and so is the next: tried as one chain (`all` over
// the `count` of a `filter`), making a permutation took up to three times as long.
fn count_named(list: &[usize], register: usize) -> usize
    ensures { result ≡ times register list.now }
{
    let mut n = 0;
    for place in list {
        if *place == register {
            n += 1;
        }
    }
    n
}

// Whether the list names each of as many registers as it is long exactly once.
fn names_each_once(list: &[usize]) -> bool
    ensures { result ≡ each_once list.now }
{
    for k in 0..list.len() {
        if count_named(list, k + 1) != 1 {
            return false;
        }
    }
    true
}

impl Permutation {
    // The permutation that the list is, or the one of no register if it is none.
    pub fn new(list: &[usize]) -> Permutation
        ensures value { named result ≡ kept_list list.now }
        ensures permutes { Permutes (named result) }
    {
        let mut places = [0; MAX_PERMUTED];
        let count = list.len();
        if count > MAX_PERMUTED || !names_each_once(list) {
            return Permutation { places, count: 0 };
        }
        places[..count].copy_from_slice(list);
        Permutation { places, count }
    }

    // How many registers a layer in this order has over `size` of them.
    pub(crate) fn extent(&self, size: usize) -> usize
        ensures { result ≡ permuted_size (named self.now) size }
    {
        if self.count == size { size } else { 0 }
    }

    // The register of `size` of them that is named at this place, which is counted from 1. Refuses (1)
    // where there is no such place.
    pub(crate) fn place(&self, size: usize, register: usize) -> Result<usize, Refusal>
        ensures { numbered result ≡ ok_or (permuted_place (named self.now) size register) (refusal_number NoRegister) }
    {
        Ok(self.places[index_of(register, self.extent(size))?])
    }
}
