// The lines that answer the lines of a script.
#![tactic(auto)]

ghost use Rattle.std.specs.Prelude.{◌≡◌, IfOk, Some, string_bytes};
ghost use Rattle.calls.specs.declared.call.Answer.TheVariants.{Stepped};
ghost use Rattle.answers.specs.Answers.{start_text, accepted_row, answer_text};

use calls::call::Answer;
use calls::outcome::Effect;
use kinds::kind::Kind;
use kinds::text::value_text;
use script::line::Head;
use std::alloc::{AllocError, Global};
use std::fmt;

// The first three of seven fields: the line's number, its letter and its worker.
#[derive(Clone, Copy, PartialEq, Eq, Debug)]
struct Start {
    number: usize,
    head: Option<Head>,
}

impl fmt::Display for Start {
    ghost output = { λ start. Some (start_text start.number start.head) };

    fn fmt<W: fmt::Write>(&self, f: &mut fmt::Formatter<W>) -> fmt::Result {
        let number = self.number;
        match self.head {
            None => write!(f, "{number},,"),
            Some(
                Head {
                    letter,
                    worker: None,
                },
            ) => write!(f, "{number},{letter},"),
            Some(
                Head {
                    letter,
                    worker: Some(worker),
                },
            ) => write!(f, "{number},{letter},{worker}"),
        }
    }
}

// The line of an accepted step.
fn step_line<K: Kind>(heap: Global, start: Start, effect: Effect<K>) -> Result<String, AllocError>
    ensures { IfOk result (λ s. string_bytes s ≡ accepted_row K.Kind.text_of (start_text start.number start.head) (Stepped effect)) }
{
    let value = value_text(heap, effect.value)?;
    // the outcome by its word, which cannot fail: of a Display no contract says so
    format!(in heap;
        "{start},{},{},{},{value}\n",
        effect.outcome.word(),
        effect.register,
        effect.round
    )
}

// The line of this number: its head, if it has one, and what was answered or the number of the
// refusal, which stands in the outcome's place with nothing after it. The refusal comes as its number:
// that is what is printed, and a narrower type would ask more of callers.
pub fn answer_line<K: Kind>(
    heap: Global,
    number: usize,
    head: Option<Head>,
    answer: Result<Answer<K>, u8>,
) -> Result<String, AllocError>
    ensures { IfOk result (λ s. string_bytes s ≡ answer_text K.Kind.text_of number head answer) }
{
    let start = Start { number, head };
    match answer {
        Ok(Answer::Opened) => format!(in heap; "{start},opened,,,\n"),
        Ok(Answer::Proposed(value)) => {
            let value = value_text(heap, Some(value))?;
            format!(in heap; "{start},proposed,,,{value}\n")
        }
        Ok(Answer::Stepped(effect)) => step_line(heap, start, effect),
        Err(refusal) => format!(in heap; "{start},r{refusal},,,\n"),
    }
}
