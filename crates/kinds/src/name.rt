// The names of the kinds, which are the letters B and C.
ghost use Rattle.std.specs.Prelude.{◌≡◌};
ghost use Rattle.std.specs.Result.{result_ok};
ghost use Rattle.kinds.specs.KindNames.{kind_of};

#[derive(Clone, Copy, PartialEq, Eq, Debug)]
pub enum KindName {
    Batch,
    Choice,
}

// A text that is another than the one letter of a kind.
#[derive(Clone, Copy, PartialEq, Eq, Debug)]
pub struct NoKind;

impl TryFrom<&[u8]> for KindName {
    type Error = NoKind;

    ghost try_from_gives = { λ text r. result_ok r ≡ kind_of text.now };

    fn try_from(text: &[u8]) -> Result<KindName, NoKind> {
        match text {
            [b'B'] => Ok(KindName::Batch),
            [b'C'] => Ok(KindName::Choice),
            _ => Err(NoKind),
        }
    }
}
