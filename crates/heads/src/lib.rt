// How a hub's head turns: into a follower's, a candidate's, a leader's, or that of a follower that took an append. The log and the gathered entries stay in
// the lent bytes.
#![tactic(auto)]

ghost use Rattle.std.specs.Prelude.{◌≡◌, ◌+◌, ◌≤◌, ◌<◌};
ghost use Rattle.kinds.specs.Sizes.{hubs_most, term_most, limit};
ghost use Rattle.promise.specs.Heads.{following, standing, leading, taking};

use kinds::{Hub, Place, Term};
use state::Head;

// A follower of this term, lost parts cleared.
#[tactic(auto, unfolding(promise::specs::Heads::following))]
pub fn follow(h: Head, t: Term) -> Head
    ensures { result ≡ following h t }
{
    Head {
        term: t,
        gathered: Place::from(0),
        role: kinds::FOLLOWER,
        voters: [false; 7],
        confirmed: [Place::from(0); 7],
        ..h
    }
}

// A candidate of the next term, with itself as its voter.
// (1 to 7 is asked here and of four more, not promised by `Hub`: C and texts give any number, and only `index_of` needs this.)
#[tactic(auto, unfolding(promise::specs::Heads::standing, promise::specs::Heads::following))]
pub fn stand(h: Head, own: Hub) -> Head
    requires { (1 ≤ own.0) × (own.0 ≤ hubs_most) × (h.term.0 < term_most) }
    ensures { result ≡ standing h own.0 }
{
    let mut next = follow(h, Term::from(u32::from(h.term) + 1));
    next.role = kinds::CANDIDATE;
    next.voters[state::index_of(own)] = true;
    next
}

// A leader whose log the gathered entries have joined: ballot = term, lost parts cleared, own confirmed length = length.
#[tactic(auto, using(kinds::proofs::SizesLaws::limit_small), unfolding(promise::specs::Heads::leading, promise::specs::Heads::following))]
pub fn lead(h: Head, own: Hub) -> Head
    requires { (1 ≤ own.0) × (own.0 ≤ hubs_most) × (h.length.0 + h.gathered.0 ≤ limit) }
    ensures { result ≡ leading h own.0 }
{
    let long = Place::from(u32::from(h.length) + u32::from(h.gathered));
    let mut next = Head {
        ballot: h.term,
        length: long,
        role: kinds::LEADER,
        ..follow(h, h.term)
    };
    next.confirmed[state::index_of(own)] = long;
    next
}

// A follower that took an append: ballot = term, with this chosen count and this length.
#[tactic(auto, unfolding(promise::specs::Heads::taking))]
pub fn take_head(h: Head, chosen: Place, n: Place) -> Head
    ensures { result ≡ taking h chosen n }
{
    Head {
        ballot: h.term,
        chosen,
        length: n,
        ..h
    }
}
