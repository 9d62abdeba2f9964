// The lines with which every message begins, written behind what an output has: type, term, from and to.
#![tactic(auto)]

ghost use Rattle.output.specs.Added.{Fits, Added};
ghost use Rattle.heading.specs.Heading.{type_text, head_text};

use message::{Body, Fields};
use output::Output;

// The line of the type.
// (A call in each arm, not one behind the `match`: each line's length is known then, and it is copied at once.)
#[tactic(auto, unfolding(crate::specs::Heading::type_text))]
pub fn write_type(out: &mut Output, body: Body)
    requires { Fits out.old (type_text body) }
    ensures { Added out.old (type_text body) out.new }
{
    match body {
        Body::VoteRequest { .. } => out.put(b"type=vote-request\n"),
        Body::VoteYes { .. } => out.put(b"type=vote-yes\n"),
        Body::VoteNo => out.put(b"type=vote-no\n"),
        Body::Append { .. } => out.put(b"type=append\n"),
        Body::AppendYes { .. } => out.put(b"type=append-yes\n"),
        Body::AppendNo { .. } => out.put(b"type=append-no\n"),
    }
}

// The lines term, from and to.
#[tactic(auto, using(output::proofs::AddedLaws::parts), unfolding(crate::specs::Heading::head_text, message::specs::Text::lines_text))]
pub fn write_head(out: &mut Output, f: Fields)
    requires { Fits out.old (head_text f) }
    ensures { Added out.old (head_text f) out.new }
{
    out.line(b"term=", f.term.into());
    out.line(b"from=", f.from.into());
    out.line(b"to=", f.to.into());
}
