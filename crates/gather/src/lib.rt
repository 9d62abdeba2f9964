// vote-yes at a candidate: its entries are gathered into the rows behind the log, and its vote is counted.
#![tactic(auto)]

ghost use Rattle.std.specs.Prelude.{◌≡◌, ◌≤◌, max};
ghost use Rattle.kinds.specs.Sizes.{hubs_most};
ghost use Rattle.state.specs.Image.{state_in};
ghost use Rattle.rules.specs.Receive.{heard_yes};
ghost use Rattle.kinds.specs.Caller.{who_in};
ghost use Rattle.promise.specs.Promise.{Ruled};
ghost use Rattle.gather.specs.Yes.{Hears, Counts, with_voter, counted_into};

use entries::Entries;
use kinds::{Caller, Hub, Place, Term};
use state::Head;

// ---- the vote

// A candidate's head with one voter more, whose count entries were gathered.
#[tactic(auto, unfolding(crate::specs::Yes::with_voter))]
fn add_voter(h: Head, from: Hub, count: u32) -> Head
    requires { (1 ≤ from.0) × (from.0 ≤ hubs_most) }
    ensures { result ≡ with_voter h from.0 (max h.gathered.0 count) }
{
    let i = state::index_of(from);
    let mut next = h;
    next.voters[i] = true;
    next.gathered = h.gathered.max(Place::from(count));
    next
}

// With a majority the hub leads, and the gathered entries join its log with the present term. Otherwise it stands on, with this head.
fn count_votes(g: Caller, h: Head, state: &mut [u8])
    requires { Counts (who_in g) h state.old }
    ensures { state.new ≡ counted_into (who_in g) h state.old }
{
    let seen = h.voters;
    if voters::count_voters(seen) < g.size / 2 + 1 {
        head::write_head(state, h);
        return;
    }
    rows::renumber(state, head::row_after(h.length), h.gathered.into(), h.term);
    head::write_head(state, heads::lead(h, g.own));
}

// ---- vote-yes

// vote-yes at a candidate, from a new voter: gathered and counted. Otherwise nothing.
pub fn hear_yes(g: Caller, state: &mut [u8], from: Hub, ballot: Term, entries: Entries<'_>) -> bool
    requires { Hears (who_in g) state.old from.0 ballot.0 entries }
    ensures { Ruled (heard_yes (who_in g) (state_in state.old) from.0 ballot.0 entries.entry) state.old result state.new }
{
    let h = head::read_head(state);
    if h.role != kinds::CANDIDATE {
        return false;
    }
    let seen = h.voters;
    if voters::has_voted(seen, from) {
        return false;
    }
    let voted = add_voter(h, from, entries.many());
    pairs::gather_in(
        state,
        head::row_after(h.length),
        h.gathered,
        ballot,
        entries,
    );
    count_votes(g, voted, state);
    true
}
