// What a kind of value has: an image and a text, each of which gives the value back.
ghost use Rattle.std.specs.Prelude.{◌≡◌, ℕ, List, ◌++◌, is_ok, if◌then◌else◌, Some, string_bytes, Option};

use std::alloc::AllocError;

pub trait Kind: Copy {
    ghost image_of: { Self → List ℕ };

    ghost of_image: { List ℕ → Option Self };

    ghost text_of: { Self → List ℕ };

    ghost of_text: { List ℕ → Option Self };

    fn image(self) -> [u8; 8]
        ensures bytes { result ≡ image_of self }
        ensures back { of_image (image_of self) ≡ Some self };

    // None where the bytes are no value's image.
    fn from_image(image: [u8; 8]) -> Option<Self>
        ensures value { result ≡ of_image image }
        ensures only { (v : Self) → result ≡ Some v → image ≡ image_of v };

    // Where there is no memory for it, `out` stays as it was. Each kind has its own, one line by
    // `text::append`: a body here would need a Display of every kind, which asks more, and would owe
    // `back` of values that there are none of.
    fn append_text(self, out: &mut String) -> Result<(), AllocError>
        ensures bytes { string_bytes out.new ≡ (if is_ok result then string_bytes out.old ++ text_of self else string_bytes out.old) }
        ensures back { of_text (text_of self) ≡ Some self };

    // None where the bytes are no value's text.
    fn from_text(text: &[u8]) -> Option<Self>
        ensures value { result ≡ of_text text.now }
        ensures only { (v : Self) → result ≡ Some v → text.now ≡ text_of v };
}
