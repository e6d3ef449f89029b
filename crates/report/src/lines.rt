// The lines of a report.
ghost use Rattle.std.specs.Prelude.{◌≡◌, IfOk, string_bytes};
ghost use Rattle.registers.specs.Refusals.{numbered};
ghost use Rattle.report.specs.Lines.{register_line, decision_line};

use kinds::kind::Kind;
use kinds::text::value_text;
use registers::record::Record;
use registers::refusal::Refusal;
use std::alloc::{AllocError, Global};

// The line of a register, by what its read answered.
pub(crate) fn register_line<K: Kind>(
    heap: Global,
    number: usize,
    answer: Result<Record<K>, Refusal>,
) -> Result<String, AllocError>
    ensures { IfOk result (λ s. string_bytes s ≡ register_line K.Kind.text_of number (numbered answer)) }
{
    match answer {
        Ok(record) => {
            let fields = record.fields();
            let value = value_text(heap, fields.value)?;
            // the tag by its word, which cannot fail: of a Display no contract says so
            format!(in heap;
                "{number},{},{},{},{value}\n",
                fields.tag.word(),
                fields.round,
                fields.accepted
            )
        }
        Err(refusal) => format!(in heap; "{number},r{},,,\n", u8::from(refusal)),
    }
}

// The last line, by what the look-up answered.
pub(crate) fn decision_line<K: Kind>(
    heap: Global,
    answer: Result<Option<K>, Refusal>,
) -> Result<String, AllocError>
    ensures { IfOk result (λ s. string_bytes s ≡ decision_line K.Kind.text_of (numbered answer)) }
{
    match answer {
        Ok(value) => {
            let value = value_text(heap, value)?;
            format!(in heap; "decision,{value}\n")
        }
        Err(refusal) => format!(in heap; "decision,r{}\n", u8::from(refusal)),
    }
}
