// What the reader asks to see: the kind of the values, and the whole box or a window of it.
#![tactic(auto)]

ghost use Rattle.std.specs.Prelude.{◌≡◌};
ghost use Rattle.requests.specs.Requests.{request_of, window_request_of};

use decimals::read_decimal;
use kinds::name::KindName;

// The registers from `first` on, `count` of them.
#[derive(Clone, Copy, PartialEq, Eq, Debug)]
pub struct Span {
    pub first: usize,
    pub count: usize,
}

#[derive(Clone, Copy, PartialEq, Eq, Debug)]
pub struct Request {
    pub kind: KindName,
    pub span: Option<Span>,
}

impl Request {
    // The whole box, or none if the kind is none.
    pub fn whole(kind: &[u8]) -> Option<Request>
        ensures { result ≡ request_of kind.now }
    {
        let kind = KindName::try_from(kind).ok()?;
        Some(Request { kind, span: None })
    }

    // A window of the box, or none if the kind is none or a number is not in decimal or too large.
    pub fn window(kind: &[u8], first: &[u8], count: &[u8]) -> Option<Request>
        ensures { result ≡ window_request_of kind.now first.now count.now }
    {
        let kind = KindName::try_from(kind).ok()?;
        // two casts that lose nothing: there is no `From` of `u64` into `usize`
        let first = read_decimal(first)? as usize;
        let count = read_decimal(count)? as usize;
        Some(Request {
            kind,
            span: Some(Span { first, count }),
        })
    }
}
