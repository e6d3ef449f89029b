// A permutation of up to eight registers: by its type it names none twice and leaves none out.
ghost use Rattle.std.specs.Prelude.{◌≡◌, true};
ghost use Rattle.layers.specs.Permutations.{is_permutation};

pub mod methods;

// The most registers that a permutation has.
pub const MAX_PERMUTED: usize = 8;

// The first `count` places name each of the registers 1 to `count` once. An array with a length
// beside it, and no Vec: a permutation is copied, and making one cannot fail for want of memory.
#[derive(Clone, Copy, PartialEq, Eq, Debug)]
pub struct Permutation {
    places: [usize; MAX_PERMUTED],
    count: usize,
    ghost lawful: { is_permutation places count ≡ true },
}
