// A hub as it stands: who is called, the head of its state, and its bytes. What a hub says and tests is said and tested of this.
#![tactic(auto)]

ghost use Rattle.std.specs.Prelude.{◌≡◌, ◌-◌, ◌≤◌};
ghost use Rattle.kinds.specs.Of.{term};
ghost use Rattle.state.specs.Image.{state_in};
ghost use Rattle.rules.specs.Events.{term_at};
ghost use Rattle.kinds.specs.Caller.{who_in};
ghost use Rattle.promise.specs.Promise.{Ready};
ghost use Rattle.promise.specs.Append.{Tested};

use kinds::{Caller, Place, Term};
use state::Head;

#[derive(Clone, Copy)]
pub struct Standing<'a> {
    pub caller: Caller,
    pub head: Head,
    pub state: &'a [u8],
    pub ghost tested: { Tested (who_in caller) head state.now },
}

impl<'a> Standing<'a> {
    // The head is read from the bytes, which are ready.
    pub fn of(caller: Caller, state: &'a [u8]) -> Standing<'a>
        requires { Ready (who_in caller) state.now }
        ensures caller { result.caller ≡ caller }
        ensures state { result.state.now ≡ state.now }
        ensures tested { Tested (who_in caller) result.head state.now }
    {
        Standing {
            caller,
            head: head::read_head(state),
            state,
        }
    }

    // The term of the entry at a place of the log; 0 at place 0.
    pub fn term_at(&self, p: Place) -> Term
        requires { p.0 ≤ self.now.head.length.0 }
        ensures { result ≡ term (term_at (state_in self.now.state.now).kept.log p.0) }
    {
        if u32::from(p) == 0 {
            return Term::from(0);
        }
        Term::from(words::get32(self.state, head::row_after(p) - kinds::ROW))
    }

    // How many entries its log has after a place.
    pub fn entries_after(&self, p: Place) -> u32
        ensures { result ≡ self.now.head.length.0 - p.0 }
    {
        u32::from(self.head.length).saturating_sub(p.into())
    }
}
