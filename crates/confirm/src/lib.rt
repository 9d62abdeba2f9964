// append-yes at a leader: a confirmed length is recorded, and chosen follows a majority of them.
#![tactic(auto)]

ghost use Rattle.std.specs.Prelude.{◌≡◌, ◌-◌, ◌≤◌, max, set};
ghost use Rattle.kinds.specs.Of.{place};
ghost use Rattle.kinds.specs.Sizes.{hubs_most};
ghost use Rattle.state.specs.Image.{state_in};
ghost use Rattle.rules.specs.Receive.{heard_end};
ghost use Rattle.rules.specs.Majority.{majority_place};
ghost use Rattle.majority.specs.Numbers.{place_numbers};
ghost use Rattle.kinds.specs.Caller.{who_in};
ghost use Rattle.promise.specs.Promise.{Ruled, HearsEnd};
ghost use Rattle.promise.specs.Heads.{confirming};

use kinds::{Caller, Hub, Place};
use state::Head;

// A leader's head with the confirmed length of another hub; chosen = the greater of itself and the largest place confirmed by a majority.
#[tactic(auto, unfolding(promise::specs::Heads::confirming))]
fn confirm(g: Caller, h: Head, from: Hub, end: Place) -> Head
    requires { (1 ≤ from.0) × (from.0 ≤ hubs_most) × (g.size ≤ hubs_most) }
    ensures { result ≡ confirming h from.0 end (place (max h.chosen.0 (majority_place g.size (place_numbers (set h.confirmed (from.0 - 1) end))))) }
{
    let mut confirmed = h.confirmed;
    confirmed[state::index_of(from)] = end;
    let chosen = h.chosen.max(majority::majority_place(g.size, confirmed));
    Head {
        chosen,
        confirmed,
        ..h
    }
}

// append-yes at a leader, with a greater end than recorded: recorded. Otherwise nothing.
pub fn hear_end(g: Caller, state: &mut [u8], from: Hub, end: Place) -> bool
    requires { HearsEnd (who_in g) state.old from.0 end.0 }
    ensures { Ruled (heard_end (who_in g) (state_in state.old) from.0 end.0) state.old result state.new }
{
    let h = head::read_head(state);
    if h.role != kinds::LEADER || end <= lengths::confirmed_of(h.confirmed, from) {
        return false;
    }
    head::write_head(state, confirm(g, h, from, end));
    true
}
