// Why a bank refuses a read or a write.
ghost use Rattle.registers.specs.Refusals.{Numbers, refusal_number};

#[derive(Clone, Copy, PartialEq, Eq, Debug)]
pub enum Refusal {
    // register 0, or one above the size
    NoRegister,
    // fields that no lawful record has
    Unlawful,
    // what the register holds is no record
    Unreadable,
}

// The number by which users know the refusal; no two have the same. Contracts compare answers by
// this number and not by the case, since the rules are in numbers.
impl From<Refusal> for u8 {
    ghost from_gives = { Numbers refusal_number };

    fn from(refusal: Refusal) -> u8 {
        match refusal {
            Refusal::NoRegister => 1,
            Refusal::Unlawful => 2,
            Refusal::Unreadable => 3,
        }
    }
}
