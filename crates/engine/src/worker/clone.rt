// A worker is copied as it stands. By hand: tried, and the derive is refused over a ghost field of a generic struct.
ghost use Rattle.std.specs.Prelude.{◌≡◌, ⊤};

use super::Worker;
use std::alloc::AllocError;

impl<V: Copy> Clone for Worker<V> {
    ghost is_clone = { λ x y. y ≡ x };

    ghost is_infallible = { λ _. ⊤ };

    fn clone(&self) -> Result<Worker<V>, AllocError> {
        Ok(*self)
    }
}
