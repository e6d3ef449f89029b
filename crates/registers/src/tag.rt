// The tag of a record, the byte that stands for it in a block, and its word.
ghost use Rattle.std.specs.Prelude.{◌≡◌, Some};
ghost use Rattle.std.specs.Result.{result_ok};
ghost use Rattle.registers.specs.Tags.{StandsFor, ReadTag, tag_word};

use std::fmt;

#[derive(Clone, Copy, PartialEq, Eq, Debug)]
pub enum Tag {
    // nothing was accepted
    None,
    // a value was put forward
    Pro,
    // a value was decided
    Dec,
}

// A byte that stands for no tag.
#[derive(Clone, Copy, PartialEq, Eq, Debug)]
pub struct NoTag;

impl From<Tag> for u8 {
    ghost from_gives = { StandsFor };

    fn from(tag: Tag) -> u8 {
        match tag {
            Tag::None => 0x4E,
            Tag::Pro => 0x50,
            Tag::Dec => 0x44,
        }
    }
}

impl TryFrom<u8> for Tag {
    type Error = NoTag;

    ghost try_from_gives = { λ byte r. ReadTag byte (result_ok r) };

    fn try_from(byte: u8) -> Result<Tag, NoTag> {
        match byte {
            0x4E => Ok(Tag::None),
            0x50 => Ok(Tag::Pro),
            0x44 => Ok(Tag::Dec),
            _ => Err(NoTag),
        }
    }
}

impl Tag {
    // The word by which users know the tag.
    pub fn word(self) -> &'static str
        ensures { result.now ≡ tag_word self }
    {
        match self {
            Tag::None => "none",
            Tag::Pro => "pro",
            Tag::Dec => "dec",
        }
    }
}

impl fmt::Display for Tag {
    ghost output = { λ tag. Some (tag_word tag) };

    fn fmt<W: fmt::Write>(&self, f: &mut fmt::Formatter<W>) -> fmt::Result {
        f.write_str(self.word())
    }
}
