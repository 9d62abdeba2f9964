// The voters that a candidate has seen, a flag for each of the seven hubs: who is among them, how many they are, and whether a candidate may have them.
#![tactic(auto)]

ghost use Rattle.std.specs.Prelude.{◌≡◌, false, not, ◌+◌, ◌-◌, ◌≤◌, length, drop, get_or};
ghost use Rattle.kinds.specs.Caller.{who_in};
ghost use Rattle.kinds.specs.Hubs.{all, count};
ghost use Rattle.kinds.specs.Sizes.{hubs_most};
ghost use Rattle.command.specs.Words.{part};
ghost use Rattle.state.specs.Head.{is_flag, voters_in};

use kinds::{Caller, Hub};

// The voters' bytes are 0 or 1.
// (A place and its room, not an array of seven: the flags lie within the head's bytes.)
pub fn are_flags(s: &[u8], at: usize) -> bool
    requires { at + hubs_most ≤ length s.now }
    ensures { result ≡ all is_flag (part at hubs_most s.now) }
{
    s[at..at + 7].iter().all(|b| *b <= 1)
}

// Whether a hub is among the voters.
pub fn has_voted(vs: [bool; 7], hub: Hub) -> bool
    ensures { result ≡ get_or vs (hub.0 - 1) false }
{
    state::for_hub(&vs, hub, false)
}

// How many voters there are.
pub fn count_voters(vs: [bool; 7]) -> u32
    ensures { result ≡ count (λ v. v) vs }
{
    vs.iter().filter(|v| **v).count() as u32
}

// Nobody from hub at + 1 on is among the voters.
pub fn no_voters(vs: [bool; 7], at: u32) -> bool
    ensures { result ≡ all not (drop at vs) }
{
    vs.iter().skip(at as usize).all(|v| !*v)
}

// Itself and less than a majority among the voters, all in 1..N.
#[tactic(auto, unfolding(state::specs::Head::voters_in))]
pub fn are_voters(g: Caller, vs: [bool; 7]) -> bool
    ensures { result ≡ voters_in (who_in g) vs }
{
    has_voted(vs, g.own) && count_voters(vs) < g.size / 2 + 1 && no_voters(vs, g.size)
}
