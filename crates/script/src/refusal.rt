// Why a line is refused.
ghost use Rattle.registers.specs.Refusals.{Numbers};
ghost use Rattle.script.specs.LineRefusals.{line_refusal_number};

#[derive(Clone, Copy, PartialEq, Eq, Debug)]
pub enum LineRefusal {
    // another shape than that of a line
    Shape,
    // a call before the instance is open
    BeforeOpen,
    // an O once the instance is open
    OpenAgain,
    // an empty value
    NoValue,
    // a value that is no text of the kind
    BadValue,
}

// The number by which users know the refusal; no two have the same. Contracts compare answers by
// this number and not by the case, since the rules are in numbers.
impl From<LineRefusal> for u8 {
    ghost from_gives = { Numbers line_refusal_number };

    fn from(refusal: LineRefusal) -> u8 {
        match refusal {
            LineRefusal::Shape => 13,
            LineRefusal::BeforeOpen => 14,
            LineRefusal::OpenAgain => 15,
            LineRefusal::NoValue => 16,
            LineRefusal::BadValue => 17,
        }
    }
}
