// The tests before every event: the numbers of the call, the state, the output.
#![tactic(auto)]

ghost use Rattle.std.specs.Prelude.{◌≡◌};
ghost use Rattle.kinds.specs.Caller.{who_in};
ghost use Rattle.promise.specs.Gate.{is_in, is_fit, gate};

use kinds::{Caller, Event, Refusal};

// N is 3, 5 or 7, and the own number in 1..N.
#[tactic(auto, unfolding(promise::specs::Gate::is_in, kinds::specs::Sizes::is_size, kinds::specs::Sizes::is_hub, kinds::specs::Sizes::between))]
fn is_in(g: Caller) -> bool
    ensures { result ≡ is_in (who_in g) }
{
    matches!(g.size, 3 | 5 | 7) && (1..=g.size).contains(&g.own.into())
}

// Whether the state that the event needs is legal: restart needs the kept parts alone.
#[tactic(auto, unfolding(promise::specs::Gate::is_fit))]
fn is_fit(g: Caller, event: Event, state: &[u8]) -> bool
    ensures { result ≡ is_fit (who_in g) event state.now }
{
    match event {
        Event::Restart => legal::is_kept_legal(state),
        _ => legal::is_legal(g, state),
    }
}

// The event that a call names, or why it is refused before every event, in the order of rule R32: 1, 2, 3.
// (The event is a number, since C gives it (`kritnamon_step`). Here it becomes an `Event`.)
#[tactic(auto, unfolding(promise::specs::Gate::gate, promise::specs::Gate::let_in))]
pub fn let_in(g: Caller, event: u32, state: &[u8], out: &[u8]) -> Result<Event, Refusal>
    ensures { result ≡ gate (who_in g) event state.now out.now }
{
    if !is_in(g) {
        return Err(Refusal::NotKnown);
    }
    let event = Event::try_from(event)?;
    if !is_fit(g, event, state) {
        return Err(Refusal::BadState);
    }
    if out.len() < kinds::text_room() {
        return Err(Refusal::ShortOutput);
    }
    Ok(event)
}
