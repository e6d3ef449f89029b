// The lines of the input, one after another.
ghost use Rattle.std.specs.Prelude.{◌≤◌, length};

use script::line::MAX_LINE;
use std::alloc::Global;
use std::io;
use std::io::{BufRead, BufReader, Stdin};

// The most lines that are read.
pub(crate) const MAX_LINES: usize = 10_000;

// The most bytes that are kept of a line: with so many it is seen to be too long.
const MAX_KEPT: usize = MAX_LINE + 1;

#[derive(Drop)]
pub(crate) struct Lines {
    input: BufReader<Stdin>,
    line: Vec<u8>,
    number: usize,
}

// How many bytes stand before the first line feed, or in all. One line, as for a slash or a comma.
fn before_feed(part: &[u8]) -> usize
    ensures { result ≤ length part.now }
{
    part.iter()
        .position(|byte| *byte == b'\n')
        .unwrap_or(part.len())
}

impl Lines {
    pub(crate) fn new(heap: Global, input: Stdin) -> io::Result<Lines> {
        Ok(Lines {
            input: BufReader::new(heap, input)?,
            line: Vec::new(heap),
            number: 0,
        })
    }

    // The line that was read last, without its line feed.
    pub(crate) fn line(&self) -> &[u8] {
        self.line.as_slice()
    }

    // The number of that line.
    pub(crate) fn number(&self) -> usize {
        self.number
    }

    // Reads the next line and answers its number, or none where no line is left to be read.
    pub(crate) fn next(&mut self) -> io::Result<Option<usize>> {
        let number = self.number;
        if number >= MAX_LINES {
            return Ok(None);
        }
        self.line.clear();
        if !self.read()? {
            return Ok(None);
        }
        self.number = number + 1;
        Ok(Some(number + 1))
    }

    // Reads up to the line feed or the end of the input; false where there is nothing before it.
    // Tried with `take` and `read_until`: the prover does not follow the loan of the input through
    // `take`. Reading has no end that can be proved, so the turns are counted.
    fn read(&mut self) -> io::Result<bool> {
        for turn in 0..u64::MAX {
            let part = self.input.fill_buf()?;
            if part.is_empty() {
                return Ok(turn > 0);
            }
            let end = before_feed(part);
            let fed = end < part.len();
            let room = MAX_KEPT.saturating_sub(self.line.len());
            self.line.extend_from_slice(&part[..end.min(room)])?;
            if fed {
                self.input.consume(end + 1);
                return Ok(true);
            }
            self.input.consume(end);
        }
        Ok(true)
    }
}
