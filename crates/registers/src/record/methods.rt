// Making a record from fields, and reading them back.
ghost use Rattle.std.specs.Prelude.{◌≡◌, Some, None};
ghost use Rattle.registers.specs.Lawful.{is_lawful, Lawful};
ghost use Rattle.registers.specs.Records.{made, fields_of, blank};

use super::{Fields, MAX_ROUND, Record};
use crate::tag::Tag;

fn is_lawful<V: Copy>(fields: &Fields<V>) -> bool
    ensures { result ≡ is_lawful fields.now }
{
    if fields.round > MAX_ROUND || fields.accepted > fields.round {
        return false;
    }
    match (fields.tag, fields.value) {
        (Tag::None, None) => fields.accepted == 0,
        (Tag::Pro | Tag::Dec, Some(_)) => fields.accepted > 0,
        _ => false,
    }
}

impl<V: Copy> Record<V> {
    // The record with these fields, or none if they are not lawful.
    pub fn new(fields: Fields<V>) -> Option<Record<V>>
        ensures value { result ≡ made fields }
        ensures refuses { result ≡ None → Lawful fields → ⊥ }
    {
        if is_lawful(&fields) {
            Some(Record { fields })
        } else {
            None
        }
    }

    // What every register holds before the first write.
    pub fn blank() -> Record<V>
        ensures { result ≡ blank }
    {
        Record {
            fields: Fields {
                round: 0,
                accepted: 0,
                tag: Tag::None,
                value: None,
            },
        }
    }

    // The fields, from which `new` makes this record again.
    pub fn fields(&self) -> Fields<V>
        ensures value { result ≡ fields_of self.now }
        ensures back { made result ≡ Some self.now }
        ensures lawful { Lawful result }
    {
        self.fields
    }
}
