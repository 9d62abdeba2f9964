// The whole step of a hub: the tests before every event, then the event. Whatever comes in, it answers.
#![tactic(auto)]

ghost use Rattle.std.specs.Prelude.{◌≡◌, ◌≤◌, ◌<◌};
ghost use Rattle.kinds.specs.Packed.{half, places_room, placed, packed};
ghost use Rattle.receive.specs.Heard.{outcome_told, place_told, bytes_told};
ghost use Rattle.rules.specs.Step.{step_of};
ghost use Rattle.promise.specs.Promise.{Answers, call};
ghost use Rattle.step.specs.Acts.{Acts};

use kinds::{Caller, Event, Refusal};
use receive::Refused;

// One step: how many bytes of message were written. All but Ok leave the state; output bytes past a message stay. What an event does not use of a, b and the
// input is not looked at.
// (The event is C's number until `let_in` has named it. One `match` then: each takes and answers something else, so closures would be no plainer.)
fn act(
    g: Caller,
    event: u32,
    a: u32,
    b: u32,
    state: &mut [u8],
    input: &[u8],
    out: &mut [u8],
) -> Result<usize, Refused>
    ensures { Acts (step_of (call g.size g.own.0 event a b state.old input.now out.old)) input.now result state.new out.new }
{
    match gate::let_in(g, event, state, out)? {
        Event::Start => Ok(start::start_at(g, state, out)?),
        Event::Propose => {
            propose::propose_at(g, state, input)?;
            Ok(0)
        }
        Event::Send => Ok(send::send_at(g, state, a.into(), b.into(), out)?),
        Event::Restart => {
            turns::restart_in(state);
            Ok(0)
        }
        Event::Receive => receive::receive_at(g, state, input, out),
    }
}

// An answer in the one number that C is told: the outcome, the place of the first wrong byte of a text that is no message, and the bytes written.
fn packed(answer: Result<usize, Refused>) -> u64
    requires { (place_told answer < places_room) × (bytes_told answer < half) }
    ensures { result ≡ packed (placed (outcome_told answer) (place_told answer)) (bytes_told answer) }
{
    match answer {
        Ok(bytes) => kinds::packed(kinds::DONE, bytes),
        Err(Refused::Unread { place }) => kinds::placed(Refusal::BadMessage.into(), place),
        Err(Refused::Stale { bytes }) => kinds::packed(Refusal::Stale.into(), bytes),
        Err(Refused::Not(r)) => u32::from(r).into(),
    }
}

// One step, answered in one number.
// (The event's number and the one number answered are the C interface.)
pub fn take_step(
    g: Caller,
    event: u32,
    a: u32,
    b: u32,
    state: &mut [u8],
    input: &[u8],
    out: &mut [u8],
) -> u64
    ensures { Answers (step_of (call g.size g.own.0 event a b state.old input.now out.old)) input.now result state.new out.new }
{
    packed(act(g, event, a, b, state, input, out))
}
