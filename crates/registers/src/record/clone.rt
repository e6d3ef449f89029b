// A record is copied as it stands. By hand: tried, and the derive is refused over a ghost field of a generic struct.
ghost use Rattle.std.specs.Prelude.{◌≡◌, ⊤};

use super::Record;
use std::alloc::AllocError;

impl<V: Copy> Clone for Record<V> {
    ghost is_clone = { λ x y. y ≡ x };

    ghost is_infallible = { λ _. ⊤ };

    fn clone(&self) -> Result<Record<V>, AllocError> {
        Ok(*self)
    }
}
