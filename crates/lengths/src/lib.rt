// The lengths that a leader knows to be confirmed, a place for each of the seven hubs: whose is which, and whether a leader may have them.
#![tactic(auto)]

ghost use Rattle.std.specs.Prelude.{◌≡◌, ◌-◌, leb, drop, get_or};
ghost use Rattle.kinds.specs.Caller.{who_in};
ghost use Rattle.kinds.specs.Of.{place};
ghost use Rattle.kinds.specs.Hubs.{all};
ghost use Rattle.state.specs.Head.{is_none, confirmed_in};

use kinds::{Caller, Hub, Place};

// The confirmed length of a hub.
pub fn confirmed_of(ps: [Place; 7], hub: Hub) -> Place
    ensures { result ≡ get_or ps (hub.0 - 1) (place 0) }
{
    state::for_hub(&ps, hub, Place::from(0))
}

// Nothing confirmed from hub at + 1 on. (Like `voters::no_voters` but for the test: a generic one would take that as a closure, and say no less.)
pub fn none_confirmed(ps: [Place; 7], at: u32) -> bool
    ensures { result ≡ all is_none (drop at ps) }
{
    ps.iter().skip(at as usize).all(|p| u32::from(*p) == 0)
}

// No confirmed length above n.
fn none_above(ps: [Place; 7], n: Place) -> bool
    ensures { result ≡ all (λ p. leb p.0 n.0) ps }
{
    ps.iter().all(|p| *p <= n)
}

// Confirmed lengths at most n, its own equal to it, zero for numbers above N.
#[tactic(auto, unfolding(state::specs::Head::confirmed_in))]
pub fn are_confirmed(g: Caller, n: Place, ps: [Place; 7]) -> bool
    ensures { result ≡ confirmed_in (who_in g) n.0 ps }
{
    none_above(ps, n) && confirmed_of(ps, g.own) == n && none_confirmed(ps, g.size)
}
