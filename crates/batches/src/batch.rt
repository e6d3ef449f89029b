// A batch of payments, by its number.
ghost use Rattle.std.specs.Prelude.{◌≡◌, Some};
ghost use Rattle.batches.specs.BatchForms.{batch, batch_image, batch_of_image, batch_text, batch_of_text};

use decimals::read_decimal;
use kinds::kind::Kind;
use kinds::text::append;
use std::alloc::AllocError;
use std::fmt;

// The first byte of each image.
const MARK: u8 = 0x42;

#[derive(Clone, Copy, PartialEq, Eq, Debug)]
pub struct Batch {
    number: u32,
}

impl Batch {
    pub fn new(number: u32) -> Batch
        ensures { result ≡ batch number }
    {
        Batch { number }
    }

    pub fn number(self) -> u32
        ensures { result ≡ self.number }
    {
        self.number
    }
}

impl fmt::Display for Batch {
    ghost output = { λ batch. Some (batch_text batch) };

    fn fmt<W: fmt::Write>(&self, f: &mut fmt::Formatter<W>) -> fmt::Result {
        let number = self.number;
        write!(f, "{number}")
    }
}

impl Kind for Batch {
    ghost image_of = { batch_image };

    ghost of_image = { batch_of_image };

    ghost text_of = { batch_text };

    ghost of_text = { batch_of_text };

    fn image(self) -> [u8; 8] {
        let [a, b, c, d] = self.number.to_be_bytes();
        [MARK, 0, 0, 0, a, b, c, d]
    }

    fn from_image(image: [u8; 8]) -> Option<Batch> {
        match image {
            [mark, 0, 0, 0, a, b, c, d] if mark == MARK => {
                Some(Batch::new(u32::from_be_bytes([a, b, c, d])))
            }
            _ => None,
        }
    }

    fn append_text(self, out: &mut String) -> Result<(), AllocError> {
        append(self, out)
    }

    fn from_text(text: &[u8]) -> Option<Batch> {
        let number = u32::try_from(read_decimal(text)?).ok()?;
        Some(Batch::new(number))
    }
}
