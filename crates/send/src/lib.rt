// The event send: a leader sends a peer its log from a place on.
#![tactic(auto)]

ghost use Rattle.std.specs.Prelude.{◌≡◌, not, ◌||◌, ◌≤◌, eqb, ltb, length};
ghost use Rattle.kinds.specs.Sizes.{is_hub, text_room};
ghost use Rattle.state.specs.Image.{state_in};
ghost use Rattle.rules.specs.Events.{sends, send};
ghost use Rattle.kinds.specs.Caller.{who_in};
ghost use Rattle.promise.specs.Promise.{Ready, Gives};
ghost use Rattle.say.specs.Said.{Said};
ghost use Rattle.send.specs.Sending.{Sending};

use kinds::{Caller, Hub, Place, Refusal};
use message::Body;
use standing::Standing;

// An append with every entry after prev.
fn send_after(hub: &Standing, peer: Hub, prev: Place, out: &mut [u8]) -> usize
    requires { Sending (who_in hub.now.caller) hub.now.state.now peer.0 prev.0 out.old }
    ensures { Said (sends (who_in hub.now.caller) (state_in hub.now.state.now) peer.0 prev.0) out.old result out.new }
{
    let body = Body::Append {
        prev,
        prevterm: hub.term_at(prev),
        chosen: hub.head.chosen,
        count: hub.entries_after(prev),
    };
    say::speak(hub, peer, body, prev, out)
}

// Whether a send is refused: to a number outside 1..N or to itself, or prev above length.
#[tactic(auto, unfolding(kinds::specs::Sizes::is_hub, kinds::specs::Sizes::between))]
fn is_bad_send(hub: &Standing, peer: Hub, prev: Place) -> bool
    ensures { result ≡ (not (is_hub hub.now.caller.size peer.0) || (eqb peer.0 hub.now.caller.own.0 || ltb hub.now.head.length.0 prev.0)) }
{
    let n = u32::from(peer);
    !(1..=hub.caller.size).contains(&n) || peer == hub.caller.own || hub.head.length < prev
}

// Send, at a leader, to a named peer from a named prev: an append with every entry after prev; how many bytes it has. A refusal (8: another role; 12: no
// such peer or prev) leaves every byte.
pub fn send_at(
    g: Caller,
    state: &[u8],
    peer: Hub,
    prev: Place,
    out: &mut [u8],
) -> Result<usize, Refusal>
    requires { Ready (who_in g) state.now × (text_room ≤ length out.old) }
    ensures { Gives (send (who_in g) (state_in state.now) peer.0 prev.0) state.now out.old result state.now out.new }
{
    let hub = Standing::of(g, state);
    if hub.head.role != kinds::LEADER {
        return Err(Refusal::WrongRole);
    }
    if is_bad_send(&hub, peer, prev) {
        return Err(Refusal::OutOfRange);
    }
    Ok(send_after(&hub, peer, prev, out))
}
