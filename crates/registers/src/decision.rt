// The decision that a bank shows.
ghost use Rattle.std.specs.Prelude.{◌≡◌};
ghost use Rattle.registers.specs.Refusals.{numbered};
ghost use Rattle.registers.specs.Decision.{shown, Looked};

use super::bank::ReadBank;
use super::refusal::Refusal;
use super::tag::Tag;

// The value of the first register with tag dec, or none. Refuses (3) where an unreadable register
// comes sooner.
pub fn look_up<B: ReadBank>(bank: &B) -> Result<Option<B::Value>, Refusal>
    ensures value { numbered result ≡ shown (B.cells bank.now) }
    ensures first { Looked (B.cells bank.now) (numbered result) }
{
    for register in 1..=bank.size() {
        let fields = bank.read(register)?.fields();
        if let Tag::Dec = fields.tag {
            return Ok(fields.value);
        }
    }
    Ok(None)
}
