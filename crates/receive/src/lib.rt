// The event receive: a text is read, its message refused in the order of rule R32 or obeyed, and a higher term taken first. Its entries stay
// where they lie in the lent text.
#![tactic(auto)]

ghost use Rattle.std.specs.Prelude.{◌≡◌, List, ℕ, ◌≤◌, length};
ghost use Rattle.kinds.specs.Sizes.{text_room};
ghost use Rattle.message.specs.Text.{read};
ghost use Rattle.state.specs.Image.{state_in};
ghost use Rattle.rules.specs.Receive.{stale_reply, receive};
ghost use Rattle.kinds.specs.Caller.{who_in};
ghost use Rattle.promise.specs.Promise.{Ready};
ghost use Rattle.say.specs.Said.{Answering};
ghost use Rattle.refuse.specs.Received.{body_in, message_heard};
ghost use Rattle.obey.specs.Obeyed.{Receives};
ghost use Rattle.receive.specs.declared.Refused.TheVariants.{Unread, Not};
ghost use Rattle.receive.specs.Heard.{heard, Told, ToldOf, Replied};

use kinds::{Caller, Refusal};
use message::{Body, Fields};
use obey::Heard;
use seek::Wrong;
use standing::Standing;

// Why a received text is refused (rule R32), with what goes with it.
#[derive(Clone, Copy, Debug, PartialEq, Eq)]
pub enum Refused {
    // It is no legal message: the place of its first wrong byte (rule R46).
    Unread { place: usize },
    // Its message is stale: how many bytes of reply were written.
    Stale { bytes: usize },
    // Any other reason.
    Not(Refusal),
}

impl From<Wrong> for Refused {
    ghost from_gives = { λ w e. e ≡ Unread w.place };

    fn from(w: Wrong) -> Refused {
        Refused::Unread { place: w.place }
    }
}

impl From<Refusal> for Refused {
    ghost from_gives = { λ r e. e ≡ Not r };

    fn from(r: Refusal) -> Refused {
        Refused::Not(r)
    }
}

// ---- a stale message

// vote-no for a vote-request and append-no for an append, with own term; nothing for the others.
fn reply_stale(hub: &Standing, f: Fields, out: &mut [u8]) -> usize
    requires { Answering (state_in hub.now.state.now) f.from.0 out.old }
    ensures { (s : List ℕ) → Replied (stale_reply (who_in hub.now.caller) (state_in hub.now.state.now) f.from.0 (body_in f.body s)) out.old result out.new }
{
    let body = f.body;
    match body {
        Body::VoteRequest { .. } => say::say_no(hub, f.from, out),
        Body::Append { .. } => say::say_length(hub, f.from, out),
        Body::VoteYes { .. } | Body::VoteNo | Body::AppendYes { .. } | Body::AppendNo { .. } => 0,
    }
}

// ---- the event

// A legal message: how many bytes of message were written.
fn receive_message(
    g: Caller,
    state: &mut [u8],
    m: Heard<'_>,
    out: &mut [u8],
) -> Result<usize, Refused>
    requires { Receives (who_in g) state.old out.old }
    ensures { Told (receive (who_in g) (state_in state.old) (message_heard m.entry.fields m.entry.lines.now)) 0 state.old out.old result state.new out.new }
{
    let f = m.fields;
    if refuse::is_misaddressed(g, f) {
        return Err(Refused::Not(Refusal::NotAddressed));
    }
    let h = head::read_head(state);
    if refuse::is_stale(h, f) {
        return Err(Refused::Stale {
            bytes: reply_stale(&Standing::of(g, state), f, out),
        });
    }
    let bytes = fresh::receive_fresh(g, h, state, m, out)?;
    Ok(bytes)
}

// Receive: how many bytes of message were written. A text that is no legal message is refused with the place of its first wrong byte.
pub fn receive_at(
    g: Caller,
    state: &mut [u8],
    input: &[u8],
    out: &mut [u8],
) -> Result<usize, Refused>
    requires { Ready (who_in g) state.old × (text_room ≤ length out.old) }
    ensures { ToldOf (heard (who_in g) (state_in state.old) (read input.now)) input.now state.old out.old result state.new out.new }
{
    let read = reader::read_message(input)?;
    let m = Heard {
        fields: read.fields,
        lines: reader::lines_of(input, read.entries),
    };
    receive_message(g, state, m, out)
}
