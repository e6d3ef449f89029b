// What a line asks.
ghost use Rattle.std.specs.Prelude.{◌≡◌, ℕ, List, IfOk, Some, Ok};
ghost use Rattle.script.specs.LineRefusals.{line_numbered};
ghost use Rattle.script.specs.Shapes.{Asked, asked, asked_answer, line_of};
ghost use Rattle.script.specs.LineTexts.{Writes};
ghost use Rattle.script.specs.Values.{Lies, behind_comma};
ghost use Rattle.script.specs.Lines.{opening_of, opening_line, value_call, call_of, call_line, head_of, head_line};
ghost use Rattle.calls.specs.declared.call.Call.TheVariants.{Step};

use super::refusal::LineRefusal;
use super::shape::read_line;
use calls::call::Call;
use calls::hint::Hint;
use kinds::kind::Kind;
use kinds::name::KindName;

// The most bytes that a line can have.
pub const MAX_LINE: usize = 40;

// The call that a line names by its letter, with its fields. A value is the part of the line that is its field. Clauses see
// it as `asked` of it, since an enum can have no Model; those named `whole` say the same of the bytes, and a name for their
// premise is no plainer.
#[derive(Clone, Copy, PartialEq, Eq, Debug)]
pub enum Line<'a> {
    Open { workers: u8, kind: KindName },
    Propose { worker: u8, value: &'a [u8] },
    Go { worker: u8 },
    Wait { worker: u8 },
    Leader { worker: u8, leader: u8 },
    Suspects { worker: u8, suspects: u8 },
}

// What is to be opened.
#[derive(Clone, Copy, PartialEq, Eq, Debug)]
pub struct Opening {
    pub workers: usize,
    pub kind: KindName,
}

// What the answer to a line repeats of it: its letter, and the number of its worker, if it names one.
#[derive(Clone, Copy, PartialEq, Eq, Debug)]
pub struct Head {
    pub letter: char,
    pub worker: Option<u8>,
}

fn step<V>(worker: u8, hint: Hint) -> Call<V>
    ensures { result ≡ Step worker hint }
{
    Call::Step {
        worker: usize::from(worker),
        hint,
    }
}

fn proposal<K: Kind>(worker: u8, value: &[u8]) -> Result<Call<K>, LineRefusal>
    ensures { line_numbered result ≡ value_call K.Kind.of_text worker value.now }
{
    if value.is_empty() {
        return Err(LineRefusal::NoValue);
    }
    let value = K::from_text(value).ok_or(LineRefusal::BadValue)?;
    Ok(Call::Propose {
        worker: usize::from(worker),
        value,
    })
}

impl Line<'_> {
    // What the bytes of a line ask; its line feed is not one of them.
    pub fn parse(line: &[u8]) -> Result<Line<'_>, LineRefusal>
        ensures value { asked_answer result ≡ line_of line.now }
        ensures only { (a : Asked) → asked_answer result ≡ Ok a → Writes line.now a }
        ensures back { (a : Asked) → Writes line.now a → asked_answer result ≡ Ok a }
        ensures place { IfOk result (Lies (behind_comma line.entry.ref_ptr line.now 2)) }
    {
        read_line(line).ok_or(LineRefusal::Shape)
    }

    // What the line opens, where nothing is open yet.
    pub fn opening(self) -> Result<Opening, LineRefusal>
        ensures value { line_numbered result ≡ opening_of (asked self.entry) }
        ensures whole { (bytes : List ℕ) → line_of bytes ≡ Ok (asked self.entry) → line_numbered result ≡ opening_line bytes }
    {
        match self {
            Line::Open { workers, kind } => Ok(Opening {
                workers: usize::from(workers),
                kind,
            }),
            _ => Err(LineRefusal::BeforeOpen),
        }
    }

    // What the line calls for, where so many workers are open.
    pub fn call<K: Kind>(self, workers: usize) -> Result<Call<K>, LineRefusal>
        ensures value { line_numbered result ≡ call_of K.Kind.of_text workers (asked self.entry) }
        ensures whole { (bytes : List ℕ) → line_of bytes ≡ Ok (asked self.entry) → line_numbered result ≡ call_line K.Kind.of_text workers bytes }
    {
        match self {
            Line::Open { .. } => Err(LineRefusal::OpenAgain),
            Line::Propose { worker, value } => proposal(worker, value),
            Line::Go { worker } => Ok(step(worker, Hint::Go)),
            Line::Wait { worker } => Ok(step(worker, Hint::Wait)),
            Line::Leader { worker, leader } => {
                let hint = Hint::from_leader(usize::from(leader), usize::from(worker));
                Ok(step(worker, hint))
            }
            Line::Suspects { worker, suspects } => {
                let hint = Hint::from_suspects(suspects, workers, usize::from(worker));
                Ok(step(worker, hint))
            }
        }
    }

    // What the answer to the line repeats of it.
    pub fn head(self) -> Head
        ensures value { result ≡ head_of (asked self.entry) }
        ensures whole { (bytes : List ℕ) → line_of bytes ≡ Ok (asked self.entry) → head_line bytes ≡ Some result }
    {
        let (letter, worker) = match self {
            Line::Open { .. } => ('O', None),
            Line::Propose { worker, .. } => ('P', Some(worker)),
            Line::Go { worker } => ('G', Some(worker)),
            Line::Wait { worker } => ('W', Some(worker)),
            Line::Leader { worker, .. } => ('L', Some(worker)),
            Line::Suspects { worker, .. } => ('S', Some(worker)),
        };
        Head { letter, worker }
    }
}
