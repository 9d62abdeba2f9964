// append at a hub of its term that does not lead: a follower that takes the message's entries if they fit.
#![tactic(auto)]

ghost use Rattle.std.specs.Prelude.{◌≡◌, ◌+◌, ◌<◌, ◌^◌, length};
ghost use Rattle.kinds.specs.Of.{place};
ghost use Rattle.state.specs.Image.{image, state_in};
ghost use Rattle.rules.specs.Receive.{fits};
ghost use Rattle.kinds.specs.Caller.{who_in};
ghost use Rattle.promise.specs.Promise.{Ready, HearsAppend};
ghost use Rattle.replace.specs.Taken.{taken_by, Followed, HearsTaking};

use entries::Entries;
use kinds::{Caller, Place, Term};
use standing::Standing;
use state::Head;

// What an append says beside its term, from and to.
#[derive(Drop)]
pub struct Append<'a> {
    pub prev: Place,
    pub prevterm: Term,
    pub chosen: Place,
    pub entries: Entries<'a>,
}

impl<'a> Append<'a> {
    // The place of its last entry; prev if it has none.
    pub fn end(&self) -> Place
        requires { self.now.prev.0 + length self.now.entries < 2 ^ 32 }
        ensures { result ≡ place (self.now.prev.0 + length self.now.entries) }
    {
        Place::from(u32::from(self.prev) + self.entries.many())
    }
}

// A candidate becomes a follower, its lost parts cleared; a follower stays as it is. The head that the state has then.
fn follow_in(g: Caller, state: &mut [u8]) -> Head
    requires { Ready (who_in g) state.old }
    ensures { Followed (who_in g) state.old result state.new }
{
    let h = head::read_head(state);
    turns::raise_in(g, h, h.term, state);
    heads::follow(h, h.term)
}

// append at a follower of its term: whether it fits. If it fits: where ballot = term and prev+count ≤ length the log stays; otherwise entries after prev
// are replaced by the message's. Ballot = term; chosen = the greater of own and the message's.
fn take_in(g: Caller, h: Head, state: &mut [u8], append: Append<'_>) -> bool
    requires { HearsTaking (who_in g) h state.old append.prev.0 append.prevterm.0 append.chosen.0 append.entries }
    ensures { let a = append.entry in
        (result ≡ fits (state_in state.old).kept a.prev.0 a.prevterm.0 (a.prev.0 + length a.entries)) × (state.new ≡ image (taken_by (state_in state.old) a.prev.0 a.prevterm.0 a.chosen.0 a.entries)) }
{
    let end = append.end();
    let hub = Standing {
        caller: g,
        head: h,
        state,
    };
    if !fits::is_fitting(&hub, append.prev, append.prevterm, end) {
        return false;
    }
    let most = h.chosen.max(append.chosen);
    if h.ballot == h.term && end <= h.length {
        head::write_head(state, heads::take_head(h, most, h.length));
        return true;
    }
    fill::put_entries(state, head::row_after(append.prev), append.entries);
    head::write_head(state, heads::take_head(h, most, end));
    true
}

// append at own term: whether it fits. A candidate becomes follower, its lost parts cleared; if the append fits, its entries are taken.
pub fn take_append(g: Caller, state: &mut [u8], append: Append<'_>) -> bool
    requires { HearsAppend (who_in g) state.old append.prev.0 append.prevterm.0 append.chosen.0 append.entries }
    ensures { let a = append.entry in
        (result ≡ fits (state_in state.old).kept a.prev.0 a.prevterm.0 (a.prev.0 + length a.entries)) × (state.new ≡ image (taken_by (state_in state.old) a.prev.0 a.prevterm.0 a.chosen.0 a.entries)) }
{
    let h = follow_in(g, state);
    take_in(g, h, state, append)
}
