// The lines that answer.
use answers::answer_line;
use batches::batch::Batch;
use calls::call::Answer;
use calls::outcome::{Effect, Outcome};
use choices::choice::Choice;
use kinds::kind::Kind;
use script::line::{Head, Line};
use std::alloc::Global;
use std::process::Abort;
use std::test::Fail;

// None for a line of another shape.
fn head(line: &str) -> Option<Head> {
    let line = Line::parse(line.as_bytes()).ok()?;
    Some(line.head())
}

// The refusal is its number, as in `answer_line`.
fn prints<K: Kind>(
    rt: &impl Abort,
    heap: Global,
    number: usize,
    line: &str,
    answer: Result<Answer<K>, u8>,
    want: &str,
) -> Result<(), Fail> {
    let text = answer_line(heap, number, head(line), answer)?;
    assert!(rt; text.as_str() == want);
    Ok(())
}

fn step(outcome: Outcome, register: usize, round: u32, value: Option<Batch>) -> Answer<Batch> {
    Answer::Stepped(Effect {
        outcome,
        register,
        round,
        value,
    })
}

#[test]
fn accepted_lines_are_answered_so(rt: HostRuntime) -> Result<(), Fail> {
    let heap = rt.alloc();
    prints::<Batch>(
        &rt,
        heap,
        1,
        "O,2,B",
        Ok(Answer::Opened),
        "1,O,,opened,,,\n",
    )?;
    let zero = Answer::Proposed(Batch::new(0));
    prints(&rt, heap, 2, "P,1,0", Ok(zero), "2,P,1,proposed,,,0\n")?;
    let choice = Choice::new(95, 65535).ok_or_else(|| Fail::new("no choice"))?;
    let choice = Answer::Proposed(choice);
    prints(
        &rt,
        heap,
        3,
        "P,8,95/65535",
        Ok(choice),
        "3,P,8,proposed,,,95/65535\n",
    )?;
    let begun = step(Outcome::Begun, 1, 1, None);
    prints(&rt, heap, 4, "G,1", Ok(begun), "4,G,1,begun,1,1,\n")?;
    let failed = step(Outcome::Failed, 2, 2, None);
    prints(&rt, heap, 7, "G,1", Ok(failed), "7,G,1,failed,2,2,\n")?;
    let ready = step(Outcome::Ready, 2, 2, Some(Batch::new(5)));
    prints(&rt, heap, 9, "G,2", Ok(ready), "9,G,2,ready,2,2,5\n")?;
    let put = step(Outcome::Put, 8, 4294967295, Some(Batch::new(4294967295)));
    prints(
        &rt,
        heap,
        18446744073709551615,
        "S,8,0",
        Ok(put),
        "18446744073709551615,S,8,put,8,4294967295,4294967295\n",
    )
}

#[test]
fn refused_lines_are_answered_so(rt: HostRuntime) -> Result<(), Fail> {
    for (number, line, refusal, want) in [
        (20usize, "G,2", 7u8, "20,G,2,r7,,,\n"),
        (21, "X,1", 13, "21,,,r13,,,\n"),
        (22, "P,1,", 16, "22,P,1,r16,,,\n"),
        (23, "O,2,B", 15, "23,O,,r15,,,\n"),
        (24, "W,255", 5, "24,W,255,r5,,,\n"),
        (25, "L,0,1", 5, "25,L,0,r5,,,\n"),
    ] {
        prints::<Batch>(&rt, rt.alloc(), number, line, Err(refusal), want)?;
    }
    Ok(())
}
