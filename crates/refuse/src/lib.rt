// Which messages are refused, in the order of rule R32: those that are not for this hub, stale ones, and those that contradict.
#![tactic(auto)]

ghost use Rattle.std.specs.Prelude.{◌≡◌, List, ℕ};
ghost use Rattle.state.specs.State.{State};
ghost use Rattle.state.specs.Head.{head_of};
ghost use Rattle.rules.specs.Receive.{is_misaddressed, is_request, is_stale, contradicts};
ghost use Rattle.kinds.specs.Caller.{who_in};
ghost use Rattle.refuse.specs.Received.{body_in, message_heard};

use kinds::Caller;
use message::{Body, Fields};
use state::Head;

// From above N or own; to neither own nor 0.
pub fn is_misaddressed(g: Caller, f: Fields) -> bool
    ensures { (s : List ℕ) → result ≡ is_misaddressed (who_in g) (message_heard f s) }
{
    let from = f.from;
    let to = f.to;
    (g.size < u32::from(from)) | ((from == g.own) | !((to == g.own) | (u32::from(to) == 0)))
}

// Whether it is a vote-request.
fn is_request(body: Body) -> bool
    ensures { (s : List ℕ) → result ≡ is_request (body_in body s) }
{
    matches!(body, Body::VoteRequest { .. })
}

// Term below own, or vote-request at own term.
pub fn is_stale(h: Head, f: Fields) -> bool
    ensures { (s : State) (t : List ℕ) → h ≡ head_of s.kept s.lost → result ≡ is_stale s (message_heard f t) }
{
    (f.term < h.term) | ((f.term == h.term) & is_request(f.body))
}

// Append at a leader; append-yes beyond a leader's length; vote-yes at a candidate with last not its length or ballot above its own.
pub fn is_contradicting(h: Head, body: Body) -> bool
    ensures { (s : State) (t : List ℕ) → h ≡ head_of s.kept s.lost → result ≡ contradicts s (body_in body t) }
{
    match body {
        Body::VoteYes { last, ballot, .. } => {
            (h.role == kinds::CANDIDATE) & ((last != h.length) | (h.ballot < ballot))
        }
        Body::Append { .. } => h.role == kinds::LEADER,
        Body::AppendYes { end } => (h.role == kinds::LEADER) & (h.length < end),
        Body::VoteRequest { .. } | Body::VoteNo | Body::AppendNo { .. } => false,
    }
}
