// What lines ask, and the numbers with which they are refused.
use batches::batch::Batch;
use calls::call::Call;
use calls::hint::Hint;
use choices::choice::Choice;
use kinds::kind::Kind;
use kinds::name::KindName;
use script::fields::field_at;
use script::line::{Line, Opening};
use script::refusal::LineRefusal;
use std::test::Fail;

// What the line opens where nothing is open.
fn before(line: &str) -> Result<Opening, LineRefusal> {
    Line::parse(line.as_bytes())?.opening()
}

// What the line calls for where three workers are open.
fn after<K: Kind>(line: &str) -> Result<Call<K>, LineRefusal> {
    Line::parse(line.as_bytes())?.call(3)
}

// The number of the refusal, if it is one.
fn refusal<T: Drop>(answer: Result<T, LineRefusal>) -> Option<u8> {
    answer.err().map(u8::from)
}

// Lines of another shape, parted by semicolons; the first is empty and the last has 41 bytes.
const OTHERS: &str =
    ";O;,;,1;X,1;Q,1;g,1;GG,1;G;G1;G,;G,1,;G,1,2;G,256;W,01;W,00;W,+1;W,-1;W, 1;W,1 ;W,1\r;W,x;O,2;O,2,;O,,B;O,2,D;O,2,b;O,2,BB;O,2,B,;O,2,B\r;O,256,B;P,1;P,,5;P,01,5;P,1,a,b;P,1,5,;L,1;L,1,;L,1,256;L,1,2,3;S,,1;S,1;S,256,1;S,1,1,;P,1,1234567890123456789012345678901234567";

#[test]
fn other_shapes_are_refused_first(rt: HostRuntime) {
    for line in OTHERS.split(';') {
        assert_eq!(rt; refusal(before(line)), Some(13));
        assert_eq!(rt; refusal(after::<Batch>(line)), Some(13));
    }
}

#[test]
fn lines_are_refused_by_their_place_and_value(rt: HostRuntime) {
    for (line, early, batch, choice) in [
        ("O,0,B", None, Some(15u8), Some(15u8)),
        ("O,255,C", None, Some(15), Some(15)),
        ("G,0", Some(14), None, None),
        ("W,255", Some(14), None, None),
        ("L,1,0", Some(14), None, None),
        ("S,255,255", Some(14), None, None),
        ("P,1,", Some(14), Some(16), Some(16)),
        ("P,1,x", Some(14), Some(17), Some(17)),
        ("P,1,\r", Some(14), Some(17), Some(17)),
        ("P,1,5\r", Some(14), Some(17), Some(17)),
        ("P,1,05", Some(14), Some(17), Some(17)),
        ("P,0,4294967295", Some(14), None, Some(17)),
        ("P,1,4294967296", Some(14), Some(17), Some(17)),
        ("P,1,95/65535", Some(14), Some(17), None),
        ("P,1,96/1", Some(14), Some(17), Some(17)),
        (
            "P,1,123456789012345678901234567890123456",
            Some(14),
            Some(17),
            Some(17),
        ),
    ] {
        assert_eq!(rt; refusal(before(line)), early);
        assert_eq!(rt; refusal(after::<Batch>(line)), batch);
        assert_eq!(rt; refusal(after::<Choice>(line)), choice);
    }
}

#[test]
fn lines_ask_for_these_calls(rt: HostRuntime) {
    for (line, workers, kind) in [
        ("O,2,B", 2usize, KindName::Batch),
        ("O,255,C", 255, KindName::Choice),
    ] {
        assert_eq!(rt; before(line), Ok(Opening { workers, kind }));
    }
    let proposal = Call::Propose {
        worker: 255,
        value: Batch::new(7),
    };
    assert_eq!(rt; after("P,255,7"), Ok(proposal));
    for (line, worker, hint) in [
        ("G,1", 1usize, Hint::Go),
        ("W,2", 2, Hint::Wait),
        ("L,2,2", 2, Hint::Go),
        ("L,2,1", 2, Hint::Wait),
        ("S,1,0", 1, Hint::Go),
        ("S,2,0", 2, Hint::Wait),
        ("S,2,1", 2, Hint::Go),
        ("S,3,3", 3, Hint::Go),
        ("S,3,7", 3, Hint::Wait),
        ("S,4,7", 4, Hint::Wait),
    ] {
        assert_eq!(rt; after::<Batch>(line), Ok(Call::Step { worker, hint }));
    }
}

#[test]
fn fields_start_and_end_here(rt: HostRuntime) -> Result<(), Fail> {
    let line = "P,12,,x";
    for (start, end, want) in [
        (0usize, 1usize, "P"),
        (1, 1, ""),
        (2, 4, "12"),
        (3, 4, "2"),
        (5, 5, ""),
        (6, 7, "x"),
        (7, 7, ""),
    ] {
        let field = field_at(line.as_bytes(), start).ok_or_else(|| Fail::new("no field"))?;
        assert_eq!(rt; (field.start, field.end), (start, end));
        assert!(rt; field.bytes == want.as_bytes());
    }
    assert!(rt; field_at(line.as_bytes(), 8).is_none());
    Ok(())
}
