// A record, which is lawful by its type, and the bare fields that one is made from.
ghost use Rattle.std.specs.Prelude.{◌≡◌, true};
ghost use Rattle.registers.specs.Lawful.{is_lawful};

use super::tag::Tag;

pub mod clone;
pub mod methods;

// The greatest round, so that a round fits four bytes and a sum of two of them does not wrap.
pub const MAX_ROUND: u32 = 1_000_000_000;

#[derive(Clone, Copy, PartialEq, Eq, Debug)]
pub struct Fields<V> {
    pub round: u32,
    pub accepted: u32,
    pub tag: Tag,
    pub value: Option<V>,
}

#[derive(Copy, PartialEq, Eq, Debug)]
pub struct Record<V> {
    fields: Fields<V>,
    ghost lawful: { is_lawful fields ≡ true },
}
