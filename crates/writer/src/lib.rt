// Legal messages written into a lent buffer, as rules R27 and R28 have their text: from their fields, and from rows of 20 bytes for their entries.
#![tactic(auto)]

ghost use Rattle.text.specs.Wrote.{Wrote};
ghost use Rattle.message.specs.Text.{text};
ghost use Rattle.message.specs.Write.{message_with, Puts};
ghost use Rattle.output.specs.Added.{Fits, Added};
ghost use Rattle.writer.specs.Parts.{own_text};

use message::{Body, Fields};
use output::Output;

// The lines of the type's own fields. Of a vote-no there are none.
#[tactic(auto, using(output::proofs::AddedLaws::parts), unfolding(crate::specs::Parts::own_text, message::specs::Fields::own_fields, message::specs::Text::lines_text))]
fn write_own(out: &mut Output, body: Body)
    requires { Fits out.old (own_text body) }
    ensures { Added out.old (own_text body) out.new }
{
    match body {
        Body::VoteRequest { last, ballot } => {
            out.line(b"last=", last.into());
            out.line(b"ballot=", ballot.into());
        }
        Body::VoteYes {
            last,
            ballot,
            count,
        } => {
            out.line(b"last=", last.into());
            out.line(b"ballot=", ballot.into());
            out.line(b"count=", count);
        }
        Body::VoteNo => {}
        Body::Append {
            prev,
            prevterm,
            chosen,
            count,
        } => {
            out.line(b"prev=", prev.into());
            out.line(b"prevterm=", prevterm.into());
            out.line(b"chosen=", chosen.into());
            out.line(b"count=", count);
        }
        Body::AppendYes { end } => out.line(b"end=", end.into()),
        Body::AppendNo { length } => out.line(b"length=", length.into()),
    }
}

// Puts the text of a legal message at the start of `out`, its entries from the first rows; answers how long it is.
pub fn put_message(out: &mut [u8], f: Fields, rows: &[u8]) -> usize
    requires { Puts f rows.now out.old }
    ensures { Wrote out.old 0 (text (message_with f rows.now)) result out.new }
{
    let mut out = Output::new(out);
    heading::write_type(&mut out, f.body);
    heading::write_head(&mut out, f);
    write_own(&mut out, f.body);
    listing::write_rows(&mut out, rows, span::span_of(f).count);
    out.len()
}
