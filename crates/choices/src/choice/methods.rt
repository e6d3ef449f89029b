// How a choice is made and read, with its image and its text.
ghost use Rattle.std.specs.Prelude.{◌≡◌, [], ◌∷◌, Some};
ghost use Rattle.kinds.specs.Words.{bytes16, word16};
ghost use Rattle.choices.specs.ChoiceForms.{choice_of, choice_image, choice_of_image, choice_text, choice_of_text, choice_from, first_slash};

use super::Choice;
use decimals::read_decimal;
use kinds::kind::Kind;
use kinds::text::append;
use std::alloc::AllocError;
use std::fmt;

const LAST_REGION: u8 = 95;

const FIRST_EDITION: u16 = 1;

// The first byte of each image.
const MARK: u8 = 0x43;

// What stands between the region and the edition in a text.
const SLASH: u8 = b'/';

impl Choice {
    pub fn new(region: u8, edition: u16) -> Option<Choice>
        ensures { result ≡ choice_of region edition }
    {
        if region <= LAST_REGION && edition >= FIRST_EDITION {
            Some(Choice { region, edition })
        } else {
            None
        }
    }

    pub fn region(self) -> u8
        ensures { result ≡ self.region }
    {
        self.region
    }

    pub fn edition(self) -> u16
        ensures { result ≡ self.edition }
    {
        self.edition
    }
}

// The edition whose bytes these are.
fn edition_of(high: u8, low: u8) -> u16
    ensures value { result ≡ word16 high low }
    ensures bytes { bytes16 result ≡ high ∷ low ∷ [] }
{
    u16::from_be_bytes([high, low])
}

// Where the first slash stands. A comma (script) and a line feed (floor) are found by one line each
// too: one function for all is no plainer.
fn slash(text: &[u8]) -> Option<usize>
    ensures { result ≡ first_slash text.now }
{
    text.iter().position(|byte| *byte == SLASH)
}

// The choice of two numbers that were read.
fn choose(region: Option<u64>, edition: Option<u64>) -> Option<Choice>
    ensures { result ≡ choice_from region edition }
{
    let region = u8::try_from(region?).ok()?;
    let edition = u16::try_from(edition?).ok()?;
    Choice::new(region, edition)
}

impl fmt::Display for Choice {
    ghost output = { λ choice. Some (choice_text choice) };

    fn fmt<W: fmt::Write>(&self, f: &mut fmt::Formatter<W>) -> fmt::Result {
        let region = self.region;
        let edition = self.edition;
        write!(f, "{region}/{edition}")
    }
}

impl Kind for Choice {
    ghost image_of = { choice_image };

    ghost of_image = { choice_of_image };

    ghost text_of = { choice_text };

    ghost of_text = { choice_of_text };

    fn image(self) -> [u8; 8] {
        let [high, low] = self.edition.to_be_bytes();
        [MARK, self.region, high, low, 0, 0, 0, 0]
    }

    fn from_image(image: [u8; 8]) -> Option<Choice> {
        match image {
            [mark, region, a, b, 0, 0, 0, 0] if mark == MARK => {
                Choice::new(region, edition_of(a, b))
            }
            _ => None,
        }
    }

    fn append_text(self, out: &mut String) -> Result<(), AllocError> {
        append(self, out)
    }

    fn from_text(text: &[u8]) -> Option<Choice> {
        let at = slash(text)?;
        choose(read_decimal(&text[..at]), read_decimal(&text[at + 1..]))
    }
}
