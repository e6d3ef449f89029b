// Runs a script: reads its lines from standard input, and prints the answer to each.
#![tactic(auto)]

use answers::answer_line;
use batches::batch::Batch;
use blocks::block::BLOCK_LEN;
use blocks::block_bank::BlockBank;
use calls::call::Answer;
use calls::refusal::CallRefusal;
use choices::choice::Choice;
use engine::instance::open;
use engine::worker::Worker;
use input::{Lines, MAX_LINES};
use kinds::kind::Kind;
use kinds::name::KindName;
use protocol::round::MAX_WORKERS;
use registers::bank::WriteBank;
use script::line::Head;
use session::{read_opening, reply};
use std::alloc::{AllocError, Global};
use std::io::{BufWriter, Stdout, Write};
use std::process::ExitCode;
use std::{fmt, io};

mod input;

// Why the script was not run to its end.
#[derive(Drop)]
enum Failure {
    Input(io::Error),
    Memory,
    Output(io::Error),
}

impl From<AllocError> for Failure {
    fn from(_why: AllocError) -> Failure {
        Failure::Memory
    }
}

impl fmt::Display for Failure {
    fn fmt<W: fmt::Write>(&self, f: &mut fmt::Formatter<W>) -> fmt::Result {
        match self {
            Failure::Input(why) => {
                write!(
                    f,
                    "floor: cannot read the script from standard input: {why}"
                )
            }
            Failure::Memory => write!(f, "floor: there is not enough memory"),
            Failure::Output(why) => write!(f, "floor: cannot write to standard output: {why}"),
        }
    }
}

// The input, the output, and the memory for the answers.
#[derive(Drop)]
struct Desk {
    heap: Global,
    lines: Lines,
    output: BufWriter<Stdout>,
}

impl Desk {
    // The number of the next line, if there is one.
    fn next(&mut self) -> Result<Option<usize>, Failure> {
        self.lines.next().map_err(Failure::Input)
    }

    fn print(&mut self, text: &str) -> Result<(), Failure> {
        self.output
            .write_all(text.as_bytes())
            .map_err(Failure::Output)
    }

    // Prints the answer to the line that was read last, a refusal by its number as `answer_line` does.
    fn answer<K: Kind>(
        &mut self,
        head: Option<Head>,
        answer: Result<Answer<K>, u8>,
    ) -> Result<(), Failure> {
        let text = answer_line(self.heap, self.lines.number(), head, answer)?;
        self.print(text.as_str())
    }
}

// Answers the lines that are left, on an open instance. A `while` is no plainer than the count: its
// measure is the line's number, and each function of the desk would have to say that it leaves it.
fn answer_calls<K: Kind, B: WriteBank<Value = K>>(
    desk: &mut Desk,
    workers: &mut [Worker<K>],
    bank: &mut B,
) -> Result<(), Failure> {
    for _ in 0..MAX_LINES {
        let Some(number) = desk.next()? else {
            return Ok(());
        };
        let text = reply(desk.heap, number, desk.lines.line(), workers, bank)?;
        desk.print(text.as_str())?;
    }
    Ok(())
}

// Opens an instance, and answers the lines that are left; false where it is refused.
fn open_and_answer<K: Kind, B: WriteBank<Value = K>>(
    desk: &mut Desk,
    head: Head,
    workers: &mut [Worker<K>],
    bank: &mut B,
) -> Result<bool, Failure> {
    let opened = open(workers, bank);
    let answer = opened.map(|()| Answer::Opened).map_err(u8::from);
    desk.answer::<K>(Some(head), answer)?;
    if opened.is_ok() {
        answer_calls(desk, workers, bank)?;
    }
    Ok(opened.is_ok())
}

// Opens an instance of this kind in a row and a box that have room for eight workers, as many as an
// instance can have. More are refused here, as the engine refuses every row that is too long. (The
// caller lends the row: of an array of a generic kind it is not known that it fits memory.)
fn open_kind<K: Kind>(
    desk: &mut Desk,
    head: Head,
    workers: usize,
    row: &mut [Worker<K>],
) -> Result<bool, Failure> {
    let mut bytes = [0u8; MAX_WORKERS * BLOCK_LEN];
    if workers > row.len().min(MAX_WORKERS) {
        desk.answer::<K>(Some(head), Err(CallRefusal::Size.into()))?;
        return Ok(false);
    }
    let mut bank = BlockBank::<K>::new(&mut bytes[..workers * BLOCK_LEN]);
    open_and_answer(desk, head, &mut row[..workers], &mut bank)
}

// Answers a line where nothing is open, and all after it if it opens an instance.
fn answer_before_open(desk: &mut Desk) -> Result<bool, Failure> {
    match read_opening(desk.lines.line()) {
        // no plainer otherwise: the kind's name picks the type of the values
        Ok((head, opening)) => match opening.kind {
            KindName::Batch => {
                let mut row = [Worker::<Batch>::new(); MAX_WORKERS];
                open_kind(desk, head, opening.workers, &mut row)
            }
            KindName::Choice => {
                let mut row = [Worker::<Choice>::new(); MAX_WORKERS];
                open_kind(desk, head, opening.workers, &mut row)
            }
        },
        Err((head, refusal)) => {
            desk.answer::<Batch>(head, Err(u8::from(refusal)))?;
            Ok(false)
        }
    }
}

// Answers lines until an instance is opened, and those after it; by a count, as above.
fn answer_script(desk: &mut Desk) -> Result<(), Failure> {
    for _ in 0..MAX_LINES {
        if desk.next()?.is_none() || answer_before_open(desk)? {
            return Ok(());
        }
    }
    Ok(())
}

fn new_desk(rt: &HostRuntime) -> io::Result<Desk> {
    Ok(Desk {
        heap: rt.alloc(),
        lines: Lines::new(rt.alloc(), rt.stdin())?,
        output: BufWriter::new(rt.alloc(), rt.stdout())?,
    })
}

fn run(rt: &HostRuntime) -> Result<(), Failure> {
    // What a desk can lack is memory for its buffers.
    let mut desk = new_desk(rt).map_err(|_| Failure::Memory)?;
    let done = answer_script(&mut desk);
    // what was answered is written also where the script was not run to its end
    let written = desk.output.flush().map_err(Failure::Output);
    done?;
    written
}

fn main(rt: HostRuntime) -> ExitCode {
    match run(&rt) {
        Ok(()) => ExitCode::SUCCESS,
        Err(failure) => {
            let _ = eprintln!(rt; "{failure}");
            ExitCode::FAILURE
        }
    }
}
