// Shows what is in a box: reads its image from standard input and prints a line for each register and the decision.
#![tactic(auto)]

use batches::batch::Batch;
use choices::choice::Choice;
use kinds::name::KindName;
use report::view::view;
use requests::Request;
use std::alloc::{AllocError, Global};
use std::io::Read;
use std::process::ExitCode;
use std::{env, fmt, io};

// 128 blocks of 20 bytes: what comes after them belongs to no register.
const IMAGE_LEN: u64 = 2560;

const USAGE: &str =
    "usage: inspect KIND [FIRST COUNT] < IMAGE, where KIND is B for batch numbers or C for choices, and FIRST and COUNT are decimal numbers up to 18446744073709551615";

// Why nothing, or not all, was shown. The floor program has its own, and a `main` like this one's: a
// crate for the little that both have in common is no plainer.
#[derive(Drop)]
enum Failure {
    Arguments,
    Input(io::Error),
    Memory,
    Output(io::Error),
}

impl From<AllocError> for Failure {
    fn from(_why: AllocError) -> Failure {
        Failure::Memory
    }
}

impl fmt::Display for Failure {
    fn fmt<W: fmt::Write>(&self, f: &mut fmt::Formatter<W>) -> fmt::Result {
        match self {
            Failure::Arguments => write!(f, "{USAGE}"),
            Failure::Input(why) => {
                write!(
                    f,
                    "inspect: cannot read the image from standard input: {why}"
                )
            }
            Failure::Memory => write!(f, "inspect: there is not enough memory"),
            Failure::Output(why) => write!(f, "inspect: cannot write to standard output: {why}"),
        }
    }
}

fn read_words(words: &[String]) -> Option<Request> {
    match words {
        [_, kind] => Request::whole(kind.as_bytes()),
        [_, kind, first, count] => {
            Request::window(kind.as_bytes(), first.as_bytes(), count.as_bytes())
        }
        _ => None,
    }
}

fn read_request(rt: &HostRuntime) -> Result<Request, Failure> {
    let words = env::args(rt).map_err(|_| Failure::Memory)?;
    let words = words.collect::<Vec<String>>(rt.alloc())?;
    read_words(words.as_slice()).ok_or(Failure::Arguments)
}

fn read_image(rt: &HostRuntime) -> io::Result<Vec<u8>> {
    let mut image = Vec::new(rt.alloc());
    rt.stdin().take(IMAGE_LEN).read_to_end(&mut image)?;
    Ok(image)
}

fn show(heap: Global, request: Request, image: &[u8]) -> Result<String, AllocError> {
    // no plainer otherwise: the kind's name picks the type of the values
    match request.kind {
        KindName::Batch => view::<Batch>(heap, image, request.span),
        KindName::Choice => view::<Choice>(heap, image, request.span),
    }
}

fn run(rt: &HostRuntime) -> Result<(), Failure> {
    let request = read_request(rt)?;
    let image = read_image(rt).map_err(Failure::Input)?;
    let text = show(rt.alloc(), request, image.as_slice())?;
    rt.print(text.as_str()).map_err(Failure::Output)
}

fn main(rt: HostRuntime) -> ExitCode {
    match run(&rt) {
        Ok(()) => ExitCode::SUCCESS,
        Err(failure) => {
            let _ = eprintln!(rt; "{failure}");
            ExitCode::FAILURE
        }
    }
}
