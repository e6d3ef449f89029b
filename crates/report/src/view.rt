// The report on a bank, and on a box of bytes.
ghost use Rattle.std.specs.Prelude.{◌≡◌, IfOk, string_bytes};
ghost use Rattle.report.specs.Lines.{report_text};
ghost use Rattle.report.specs.Views.{viewed_cells};

use super::lines::{decision_line, register_line};
use blocks::image_bank::ImageBank;
use kinds::kind::Kind;
use layers::window::Window;
use registers::bank::ReadBank;
use registers::decision::look_up;
use requests::Span;
use std::alloc::{AllocError, Global};

// The number of registers, a line for each, and the decision that the bank shows.
pub fn report<K: Kind, B: ReadBank<Value = K>>(heap: Global, bank: &B) -> Result<String, AllocError>
    ensures { IfOk result (λ s. string_bytes s ≡ report_text K.Kind.text_of (B.ReadBank.cells bank.now)) }
{
    let size = bank.size();
    let mut out = format!(in heap; "registers,{size}\n")?;
    for register in 1..=size {
        let line = register_line(heap, register, bank.read(register))?;
        out.push_str(line.as_str())?;
    }
    let last = decision_line(heap, look_up(bank))?;
    out.push_str(last.as_str())?;
    Ok(out)
}

// The report on a box, whole or through a window.
pub fn view<K: Kind>(heap: Global, bytes: &[u8], span: Option<Span>) -> Result<String, AllocError>
    ensures { IfOk result (λ s. string_bytes s ≡ report_text K.Kind.text_of (viewed_cells K.Kind.of_image bytes.now span)) }
{
    let bank = ImageBank::<K>::new(bytes);
    match span {
        None => report(heap, &bank),
        Some(span) => report(heap, &Window::new(bank, span.first, span.count)),
    }
}
