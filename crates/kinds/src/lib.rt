// What a kind of value has, an image of eight bytes and a text, each of which gives the value back; and the kinds' names.
#![tactic(auto)]

pub mod kind;
pub mod name;
pub mod text;
