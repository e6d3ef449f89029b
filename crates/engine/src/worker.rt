// A worker, whose state is sound by its type.
ghost use Rattle.std.specs.Prelude.{◌≡◌, true};
ghost use Rattle.engine.specs.Sound.{is_sound};

use protocol::state::State;

pub mod clone;
pub mod methods;

#[derive(Copy, PartialEq, Eq, Debug)]
pub struct Worker<V> {
    state: State<V>,
    ghost sound: { is_sound state ≡ true },
}
