// The fields of a line, which are parts of the line itself.
ghost use Rattle.std.specs.Prelude.{◌≡◌, IfSome, position};
ghost use Rattle.std.specs.Option.{option_map};
ghost use Rattle.script.specs.Fields.{is_comma, field_at, placed, part_place, Parted};

// A field by its bytes and by where it starts and ends in its line.
#[derive(Clone, Copy, PartialEq, Eq, Debug)]
pub struct Field<'a> {
    pub bytes: &'a [u8],
    pub start: usize,
    pub end: usize,
}

// One line, as for a slash in choices.
fn first_comma(text: &[u8]) -> Option<usize>
    ensures { result ≡ position is_comma text.now }
{
    text.iter().position(|byte| *byte == b',')
}

// The field that starts at `start`, which is no copy. None where the line ends before.
pub fn field_at(line: &[u8], start: usize) -> Option<Field<'_>>
    ensures value { option_map placed result ≡ field_at line.now start }
    ensures part { IfSome result (λ f. f.bytes.ref_ptr ≡ part_place line.entry.ref_ptr start) }
    ensures parted { IfSome result (λ f. Parted line.now f.start f.end) }
{
    let rest = line.get(start..)?;
    let end = start + first_comma(rest).unwrap_or(rest.len());
    Some(Field {
        bytes: &line[start..end],
        start,
        end,
    })
}
