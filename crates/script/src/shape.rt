// How a line is taken apart. Each function says of the value where it lies (`place`): a caller learns it in no other way.
ghost use Rattle.std.specs.Prelude.{◌≡◌, IfSome};
ghost use Rattle.std.specs.Option.{option_map};
ghost use Rattle.script.specs.Shapes.{asked, number_of, two_fields, open_of, propose_of, numbers_of, shape, whole_line};
ghost use Rattle.script.specs.Values.{Lies, behind_comma};

use super::fields::field_at;
use super::line::{Line, MAX_LINE};
use decimals::read_decimal;
use kinds::name::KindName;

fn read_number(text: &[u8]) -> Option<u8>
    ensures { result ≡ number_of text.now }
{
    u8::try_from(read_decimal(text)?).ok()
}

// The two fields of a text, where it has two.
fn two_fields(text: &[u8]) -> Option<(&[u8], &[u8])>
    ensures value { option_map (λ p. (p.0.now, p.1.now)) result ≡ two_fields text.now }
    ensures place { IfSome result (λ p. p.1.ref_ptr ≡ behind_comma text.entry.ref_ptr text.now 0) }
{
    let first = field_at(text, 0)?;
    let second = field_at(text, first.end + 1)?;
    (second.end == text.len()).then_some((first.bytes, second.bytes))
}

fn two_numbers(text: &[u8]) -> Option<(u8, u8)>
    ensures { result ≡ numbers_of (two_fields text.now) }
{
    let (first, second) = two_fields(text)?;
    Some((read_number(first)?, read_number(second)?))
}

fn read_open(text: &[u8]) -> Option<Line<'_>>
    ensures value { option_map asked result ≡ open_of (two_fields text.now) }
    ensures place { IfSome result (Lies (behind_comma text.entry.ref_ptr text.now 0)) }
{
    let (workers, kind) = two_fields(text)?;
    Some(Line::Open {
        workers: read_number(workers)?,
        kind: KindName::try_from(kind).ok()?,
    })
}

fn read_propose(text: &[u8]) -> Option<Line<'_>>
    ensures value { option_map asked result ≡ propose_of (two_fields text.now) }
    ensures place { IfSome result (Lies (behind_comma text.entry.ref_ptr text.now 0)) }
{
    let (worker, value) = two_fields(text)?;
    let worker = read_number(worker)?;
    Some(Line::Propose { worker, value })
}

// What the call of this letter asks with the fields behind its comma.
fn read_letter(letter: u8, rest: &[u8]) -> Option<Line<'_>>
    ensures value { option_map asked result ≡ shape letter rest.now }
    ensures place { IfSome result (Lies (behind_comma rest.entry.ref_ptr rest.now 0)) }
{
    match char::from(letter) {
        'O' => read_open(rest),
        'P' => read_propose(rest),
        'G' => Some(Line::Go {
            worker: read_number(rest)?,
        }),
        'W' => Some(Line::Wait {
            worker: read_number(rest)?,
        }),
        'L' => {
            let (worker, leader) = two_numbers(rest)?;
            Some(Line::Leader { worker, leader })
        }
        'S' => {
            let (worker, suspects) = two_numbers(rest)?;
            Some(Line::Suspects { worker, suspects })
        }
        _ => None,
    }
}

pub(crate) fn read_line(line: &[u8]) -> Option<Line<'_>>
    ensures value { option_map asked result ≡ whole_line line.now }
    ensures place { IfSome result (Lies (behind_comma line.entry.ref_ptr line.now 2)) }
{
    if line.len() > MAX_LINE {
        return None;
    }
    match line {
        [letter, b',', rest @ ..] => read_letter(*letter, rest),
        _ => None,
    }
}
