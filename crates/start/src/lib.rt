// The event start: a hub stands for the next term and asks all hubs for their votes.
#![tactic(auto)]

ghost use Rattle.std.specs.Prelude.{◌≤◌, length};
ghost use Rattle.kinds.specs.Sizes.{text_room};
ghost use Rattle.state.specs.Image.{state_in};
ghost use Rattle.rules.specs.Events.{asks, start};
ghost use Rattle.kinds.specs.Caller.{who_in};
ghost use Rattle.promise.specs.Promise.{Ready, Gives};
ghost use Rattle.say.specs.Said.{Said};
ghost use Rattle.start.specs.Asking.{Asking};

use kinds::{Caller, Hub, Refusal};
use message::Body;
use standing::Standing;

// Asks all hubs for their votes: last is its length, with its ballot.
fn ask(hub: &Standing, out: &mut [u8]) -> usize
    requires { Asking (who_in hub.now.caller) hub.now.state.now out.old }
    ensures { Said (asks (who_in hub.now.caller) (state_in hub.now.state.now)) out.old result out.new }
{
    let last = hub.head.length;
    let ballot = hub.head.ballot;
    say::speak(
        hub,
        Hub::from(0),
        Body::VoteRequest { last, ballot },
        last,
        out,
    )
}

// Start, at a follower or a candidate: a candidate of the next term, and a vote-request to all; how many bytes it has. A refusal (8: a leader; 9: the
// last term) leaves every byte.
// (The room is asked of the output in three events: C lends bytes of any length, and `gate` has tested it.)
pub fn start_at(g: Caller, state: &mut [u8], out: &mut [u8]) -> Result<usize, Refusal>
    requires { Ready (who_in g) state.old × (text_room ≤ length out.old) }
    ensures { Gives (start (who_in g) (state_in state.old)) state.old out.old result state.new out.new }
{
    let h = head::read_head(state);
    if h.role == kinds::LEADER {
        return Err(Refusal::WrongRole);
    }
    if u32::from(h.term) == kinds::TERM_MOST {
        return Err(Refusal::NoTermLeft);
    }
    turns::start_in(g, h, state);
    let risen = Standing::of(g, state);
    Ok(ask(&risen, out))
}
