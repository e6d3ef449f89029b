// What the report says of a box, and what arguments ask for.
use batches::batch::Batch;
use choices::choice::Choice;
use kinds::kind::Kind;
use kinds::name::KindName;
use report::view::view;
use requests::{Request, Span};
use std::alloc::Global;
use std::process::Abort;
use std::test::Fail;

const IMAGE: [u8; 60] = [
    0x50, 0, 0, 0, 0, 0, 0, 3, 0, 0, 0, 3, 0x42, 0, 0, 0, 0, 0, 0, 5, 0x4E, 0, 0, 0, 0, 0, 0, 0, 0,
    0, 0, 0, 0, 0, 0, 0, 0, 0, 0, 0, 0x44, 0, 0, 0, 0, 0, 0, 4, 0, 0, 0, 2, 0x42, 0, 0, 0, 0, 0, 0,
    7,
];

fn span(first: usize, count: usize) -> Option<Span> {
    Some(Span { first, count })
}

fn shows<K: Kind>(
    rt: &impl Abort,
    heap: Global,
    len: usize,
    span: Option<Span>,
    want: &str,
) -> Result<(), Fail> {
    if len > 60 {
        return Err(Fail::new("no such part"));
    }
    let text = view::<K>(heap, &IMAGE[0..len], span)?;
    assert!(rt; text.as_str() == want);
    Ok(())
}

#[test]
fn boxes_read_as_these_lines(rt: HostRuntime) -> Result<(), Fail> {
    let heap = rt.alloc();
    let all = "registers,3\n1,pro,3,3,5\n2,none,0,0,\n3,dec,4,2,7\ndecision,7\n";
    shows::<Batch>(&rt, heap, 60, None, all)?;
    let two = "registers,2\n1,pro,3,3,5\n2,none,0,0,\ndecision,\n";
    shows::<Batch>(&rt, heap, 60, span(1, 2), two)?;
    shows::<Batch>(&rt, heap, 59, None, two)?;
    shows::<Choice>(
        &rt,
        heap,
        60,
        span(1, 1),
        "registers,1\n1,r3,,,\ndecision,r3\n",
    )?;
    shows::<Batch>(&rt, heap, 60, span(2, 3), "registers,0\ndecision,\n")?;
    let far = span(18446744073709551615, 18446744073709551615);
    shows::<Batch>(&rt, heap, 60, far, "registers,0\ndecision,\n")
}

#[test]
fn arguments_ask_for_these_views(rt: HostRuntime) {
    let whole = Request {
        kind: KindName::Choice,
        span: None,
    };
    assert_eq!(rt; Request::whole(b"C"), Some(whole));
    for kind in ["", "c", "BB", "D"] {
        assert_eq!(rt; Request::whole(kind.as_bytes()), None);
        assert_eq!(rt; Request::window(kind.as_bytes(), b"1", b"1"), None);
    }
    let most = Request {
        kind: KindName::Batch,
        span: span(3, 18446744073709551615),
    };
    assert_eq!(rt;
        Request::window(b"B", b"3", b"18446744073709551615"),
        Some(most)
    );
    for number in ["", "01", "-1", "18446744073709551616"] {
        assert_eq!(rt; Request::window(b"B", b"1", number.as_bytes()), None);
        assert_eq!(rt; Request::window(b"B", number.as_bytes(), b"1"), None);
    }
}
