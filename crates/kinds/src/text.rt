// The text of a value that may be absent, and a text put behind another.
ghost use Rattle.std.specs.Prelude.{◌≡◌, ℕ, List, ◌++◌, is_ok, if◌then◌else◌, IfOk, Some, string_bytes};
ghost use Rattle.kinds.specs.Texts.{value_text};

use super::kind::Kind;
use std::alloc::{AllocError, Global};
use std::fmt::Display;

// Empty where there is no value. No Display of its own: that would need one of every kind, which
// asks more of who has a kind.
pub fn value_text<K: Kind>(heap: Global, value: Option<K>) -> Result<String, AllocError>
    ensures { IfOk result (λ s. string_bytes s ≡ value_text K.Kind.text_of value) }
{
    let mut text = String::new(heap);
    if let Some(value) = value {
        value.append_text(&mut text)?;
    }
    Ok(text)
}

// Puts what `{}` prints behind the text. Where there is no memory for it, `out` stays as it was, so
// it is printed apart first.
pub fn append<T: Display + Copy>(value: T, out: &mut String) -> Result<(), AllocError>
    ensures { (bytes : List ℕ) → T.Display.output value ≡ Some bytes → string_bytes out.new ≡ (if is_ok result then string_bytes out.old ++ bytes else string_bytes out.old) }
{
    let alloc = *out.allocator();
    let text = format!(in alloc; "{value}")?;
    out.push_str(text.as_str())
}
