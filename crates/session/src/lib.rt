// One line of a script on an instance: what it asks is done, and its answer line is made.
#![tactic(auto)]

ghost use Rattle.std.specs.Prelude.{◌≡◌, IfOk, string_bytes};
ghost use Rattle.script.specs.Shapes.{asked};
ghost use Rattle.script.specs.Lines.{opening_line, head_line};
ghost use Rattle.answers.specs.Answers.{answer_text};
ghost use Rattle.engine.specs.Rows.{states};
ghost use Rattle.engine.specs.Steps.{whole_by};
ghost use Rattle.session.specs.declared.Refused.TheVariants.{Line, Call};
ghost use Rattle.session.specs.Refusing.{refused_number, refused_numbered, opened};
ghost use Rattle.session.specs.Sessions.{asked_whole, line_whole};

use answers::answer_line;
use calls::call::Answer;
use calls::refusal::CallRefusal;
use engine::instance::make;
use engine::worker::Worker;
use kinds::kind::Kind;
use registers::bank::WriteBank;
use script::line::{Head, Line, Opening};
use script::refusal::LineRefusal;
use std::alloc::{AllocError, Global};

// Why a line is not answered as it asks: the line is refused, or the call that it asks for.
#[derive(Clone, Copy, PartialEq, Eq, Debug)]
enum Refused {
    Line(LineRefusal),
    Call(CallRefusal),
}

impl From<LineRefusal> for Refused {
    ghost from_gives = { λ refusal refused. refused ≡ Line refusal };

    fn from(refusal: LineRefusal) -> Refused {
        Refused::Line(refusal)
    }
}

impl From<CallRefusal> for Refused {
    ghost from_gives = { λ refusal refused. refused ≡ Call refusal };

    fn from(refusal: CallRefusal) -> Refused {
        Refused::Call(refusal)
    }
}

impl From<Refused> for u8 {
    ghost from_gives = { λ refused number. number ≡ refused_number refused };

    fn from(refused: Refused) -> u8 {
        match refused {
            Refused::Line(refusal) => refusal.into(),
            Refused::Call(refusal) => refusal.into(),
        }
    }
}

// The answer with its refusal as the number that is printed: `answer_line` takes every number.
fn numbered<T: Copy>(answer: Result<T, Refused>) -> Result<T, u8>
    ensures { result ≡ refused_numbered answer }
{
    Ok(answer?)
}

// Makes the call that a line asks for.
fn call<K: Kind, B: WriteBank<Value = K>>(
    line: Line<'_>,
    workers: &mut [Worker<K>],
    bank: &mut B,
) -> Result<Answer<K>, Refused>
    ensures whole { whole_by refused_number result (states workers.new) (B.ReadBank.cells bank.new) ≡ asked_whole K.Kind.of_text (asked line.entry) (states workers.old) (B.ReadBank.cells bank.old) }
    ensures rest { B.rest bank.new ≡ B.rest bank.old }
{
    let call = line.call::<K>(workers.len())?;
    Ok(make(workers, bank, call)?)
}

// What a line opens where nothing is open yet, or its refusal, and what its answer repeats of it,
// if it has the shape of a line.
pub fn read_opening(line: &[u8]) -> Result<(Head, Opening), (Option<Head>, LineRefusal)>
    ensures { opened result ≡ (head_line line.now, opening_line line.now) }
{
    let line = Line::parse(line).map_err(|refusal| (None, refusal))?;
    let head = line.head();
    let opening = line.opening().map_err(|refusal| (Some(head), refusal))?;
    Ok((head, opening))
}

// The answer to a line on an open instance, as text. With a text and no record for an answer, its clauses stay three.
pub fn reply<K: Kind, B: WriteBank<Value = K>>(
    heap: Global,
    number: usize,
    line: &[u8],
    workers: &mut [Worker<K>],
    bank: &mut B,
) -> Result<String, AllocError>
    ensures text { IfOk result (λ s. string_bytes s ≡ answer_text K.Kind.text_of number (head_line line.now) (line_whole K.Kind.of_text line.now (states workers.old) (B.ReadBank.cells bank.old)).answer) }
    ensures workers { states workers.new ≡ (line_whole K.Kind.of_text line.now (states workers.old) (B.ReadBank.cells bank.old)).states }
    ensures cells { B.ReadBank.cells bank.new ≡ (line_whole K.Kind.of_text line.now (states workers.old) (B.ReadBank.cells bank.old)).cells }
    ensures rest { B.rest bank.new ≡ B.rest bank.old }
{
    match Line::parse(line) {
        Ok(line) => {
            let head = line.head();
            let answer = numbered(call(line, workers, bank));
            answer_line(heap, number, Some(head), answer)
        }
        Err(refusal) => answer_line::<K>(heap, number, None, Err(u8::from(refusal))),
    }
}
