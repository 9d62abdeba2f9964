// How many entries follow a message's fields, and the range of their terms.
#![tactic(auto)]

ghost use Rattle.std.specs.Prelude.{◌≡◌};
ghost use Rattle.message.specs.Answer.{opening_of};
ghost use Rattle.span.specs.Span.{span_of};

use message::{Body, Fields};
use text::Bounds;

// How many entries follow, and the range of their terms.
// (No `Option`: two of three callers ask for the count alone, and the definition `span_of` says a range for no entries too.)
#[derive(Clone, Copy, Debug, PartialEq, Eq)]
pub struct Span {
    pub count: u32,
    pub terms: Bounds,
}

// The entries that follow these fields.
#[tactic(auto, unfolding(crate::specs::Span::span_of, message::specs::Fields::count_in, message::specs::Range::low_in, message::specs::Range::high_in))]
pub fn span_of(f: Fields) -> Span
    ensures { result ≡ span_of (opening_of f) }
{
    match f.body {
        Body::VoteYes { ballot, count, .. } => Span {
            count,
            terms: Bounds {
                lo: 1,
                hi: ballot.into(),
            },
        },
        Body::Append {
            prevterm,
            count,
            ..
        } => Span {
            count,
            terms: Bounds {
                lo: u32::from(prevterm).max(1),
                hi: f.term.into(),
            },
        },
        Body::VoteRequest { .. } | Body::VoteNo | Body::AppendYes { .. } | Body::AppendNo { .. } =>
            Span {
                count: 0,
                terms: Bounds { lo: 1, hi: 0 },
            },
    }
}
