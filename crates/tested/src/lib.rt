// Whether the message of fields and rows is legal (rule R30).
#![tactic(auto)]

ghost use Rattle.std.specs.Prelude.{◌≡◌, ◌+◌, ◌*◌, ◌≤◌, List, leb, length};
ghost use Rattle.kinds.specs.Sizes.{between, hubs_most, limit, row_size, term_most};
ghost use Rattle.command.specs.Entry.{Entry, legal_entries};
ghost use Rattle.message.specs.Message.{append};
ghost use Rattle.message.specs.Legal.{legal_to, legal_body, legal_message};
ghost use Rattle.message.specs.Rows.{row_entries};
ghost use Rattle.message.specs.Answer.{many_in, said_with};
ghost use Rattle.message.specs.Write.{message_with};

use kinds::{Hub, Place, Term};
use message::{Body, Fields};

#[tactic(auto, unfolding(kinds::specs::Sizes::between))]
fn is_term(t: Term) -> bool
    ensures { result ≡ between 1 term_most t.0 }
{
    (1..=kinds::TERM_MOST).contains(&u32::from(t))
}

// (Like `is_term` but for the type and the end, each one line of the library's `contains`: a generic one would take both, and be no shorter.)
#[tactic(auto, unfolding(kinds::specs::Sizes::between))]
fn is_hub(h: Hub) -> bool
    ensures { result ≡ between 1 hubs_most h.0 }
{
    (1..=kinds::HUBS).contains(&u32::from(h))
}

fn is_place(p: Place) -> bool
    ensures { result ≡ leb p.0 limit }
{
    u32::from(p) <= kinds::places()
}

// The place of the last of so many entries behind a place.
fn last_of(place: Place, count: u32) -> u64
    ensures { result ≡ place.0 + count }
{
    u64::from(u32::from(place)) + u64::from(count)
}

// Whether so many entries behind a place lie in a log.
#[tactic(auto, unfolding(kinds::specs::Sizes::limit))]
fn is_run(place: Place, count: u32) -> bool
    ensures { result ≡ leb (place.0 + count) limit }
{
    last_of(place, count) <= u64::from(kinds::places())
}

// Whether the entries of the first rows are legal: terms from low on, never falling, at most high; commands legal.
#[tactic(auto, using(rows::proofs::LegalLaws::entries_held))]
fn are_legal(rows: &[u8], count: u32, low: u32, high: u32) -> bool
    requires { count * row_size ≤ length rows.now }
    ensures { result ≡ legal_entries low high (row_entries count rows.now) }
{
    rows::are_legal(rows, 0, count, true, low, high)
}

// Whether an append's own fields and entries are legal. (A function of its own: among the other types' tests its proof does not close.)
#[tactic(auto, using(rows::proofs::RowLaws::rows_in_length), unfolding(message::specs::Legal::legal_body))]
fn is_append(
    term: Term,
    prev: Place,
    prevterm: Term,
    chosen: Place,
    count: u32,
    rows: &[u8],
) -> bool
    requires { count * row_size ≤ length rows.now }
    ensures { result ≡ legal_body term.0 (append prev.0 prevterm.0 chosen.0 (row_entries count rows.now)) }
{
    let before = u32::from(prevterm);
    let low = before.max(1);
    is_run(prev, count)
        && (before == 0) == (u32::from(prev) == 0)
        && prevterm <= term
        && u64::from(u32::from(chosen)) <= last_of(prev, count)
        && are_legal(rows, count, low, term.into())
}

// ---- the whole

// Whether a message with this body may go to a hub: a vote-request goes to all, which is 0.
#[tactic(auto, unfolding(message::specs::Legal::legal_to))]
fn is_to(to: Hub, body: Body) -> bool
    ensures { (es : List Entry) → result ≡ legal_to to.0 (said_with body es) }
{
    match body {
        Body::VoteRequest { .. } => u32::from(to) == 0,
        _ => is_hub(to),
    }
}

// Whether the type's own fields, and its entries, are legal.
#[tactic(auto, using(rows::proofs::RowLaws::rows_in_length), unfolding(message::specs::Legal::legal_body))]
fn is_body(term: Term, body: Body, rows: &[u8]) -> bool
    requires { many_in body * row_size ≤ length rows.now }
    ensures { result ≡ legal_body term.0 (said_with body (row_entries (many_in body) rows.now)) }
{
    match body {
        Body::VoteRequest { last, ballot } => {
            is_place(last) && ballot < term && (u32::from(ballot) != 0 || u32::from(last) == 0)
        }
        Body::VoteYes {
            last,
            ballot,
            count,
        } => {
            let b = u32::from(ballot);
            is_run(last, count)
                && ballot < term
                && (b != 0 || count == 0)
                && are_legal(rows, count, 1, b)
        }
        Body::VoteNo => true,
        Body::Append {
            prev,
            prevterm,
            chosen,
            count,
        } => is_append(term, prev, prevterm, chosen, count, rows),
        Body::AppendYes { end } => is_place(end),
        Body::AppendNo { length } => is_place(length),
    }
}

// Whether the message of these fields and rows is legal.
#[tactic(auto, unfolding(message::specs::Legal::legal_message, message::specs::Write::message_with))]
pub fn is_legal(f: Fields, rows: &[u8]) -> bool
    requires { many_in f.body * row_size ≤ length rows.now }
    ensures { result ≡ legal_message (message_with f rows.now) }
{
    is_term(f.term) && is_hub(f.from) && is_to(f.to, f.body) && is_body(f.term, f.body, rows)
}
