// Whether an append fits a hub's log.
#![tactic(auto)]

ghost use Rattle.std.specs.Prelude.{◌≡◌};
ghost use Rattle.state.specs.Image.{state_in};
ghost use Rattle.rules.specs.Receive.{fits};
ghost use Rattle.fits.specs.Follows.{follows};

use kinds::{Place, Term};
use standing::Standing;

// Prev is 0, or prev ≤ length and the entry there has term prevterm.
fn is_following(hub: &Standing, prev: Place, prevterm: Term) -> bool
    ensures { result ≡ follows (state_in hub.now.state.now).kept prev.0 prevterm.0 }
{
    u32::from(prev) == 0 || (prev <= hub.head.length && hub.term_at(prev) == prevterm)
}

// Whether an append fits: it follows, and also ballot = term or prev+count ≥ length.
pub fn is_fitting(hub: &Standing, prev: Place, prevterm: Term, end: Place) -> bool
    ensures { result ≡ fits (state_in hub.now.state.now).kept prev.0 prevterm.0 end.0 }
{
    let h = hub.head;
    is_following(hub, prev, prevterm) && (h.ballot == h.term || h.length <= end)
}
