// What a hub says: any message of its own, from its state's bytes into the lent output, and its answers to other hubs.
#![tactic(auto)]

ghost use Rattle.std.specs.Prelude.{◌≡◌, true, ◌≤◌};
ghost use Rattle.kinds.specs.Sizes.{limit};
ghost use Rattle.message.specs.Message.{vote_request, vote_no, append_yes, append_no};
ghost use Rattle.message.specs.Legal.{legal_body};
ghost use Rattle.state.specs.Image.{state_in};
ghost use Rattle.rules.specs.Events.{len, says};
ghost use Rattle.rules.specs.Receive.{ballot_told, vote};
ghost use Rattle.kinds.specs.Caller.{who_in};
ghost use Rattle.say.specs.Said.{Said, Answering};
ghost use Rattle.say.specs.Spoken.{spoken, Speaks};

use kinds::{Hub, Place, Term};
use message::{Body, Fields};
use standing::Standing;
use state::Head;

// ---- any message

// Writes a message of this hub, with its term and itself as from. The entries that the body counts are those of its log after a place, lent where they lie.
pub fn speak(hub: &Standing, to: Hub, body: Body, after: Place, out: &mut [u8]) -> usize
    requires { Speaks (who_in hub.now.caller) hub.now.state.now to.0 body after.0 out.old }
    ensures { Said (spoken (who_in hub.now.caller) (state_in hub.now.state.now) to.0 body after.0) out.old result out.new }
{
    let fields = Fields {
        term: hub.head.term,
        from: hub.caller.own,
        to,
        body,
    };
    let row = head::row_after(after);
    writer::put_message(out, fields, &hub.state[row..])
}

// ---- answers

// Says vote-no.
// (`Answering` is of the hub, of whom it answers and of the output at once: no one value here could carry it.)
pub fn say_no(hub: &Standing, to: Hub, out: &mut [u8]) -> usize
    requires { Answering (state_in hub.now.state.now) to.0 out.old }
    ensures { Said (says (who_in hub.now.caller) (state_in hub.now.state.now) to.0 vote_no) out.old result out.new }
{
    speak(hub, to, Body::VoteNo, hub.head.length, out)
}

// The ballot that a hub tells: 0 with an empty log, else its own. Who holds no entry has voted for none, whatever ballot it has reached.
#[tactic(auto, unfolding(rules::specs::Receive::ballot_told))]
fn ballot_told(h: Head) -> Term
    ensures { result.0 ≡ ballot_told h.length.0 h.ballot.0 }
{
    if u32::from(h.length) == 0 {
        return Term::from(0);
    }
    h.ballot
}

// Answers a vote-request of this last and ballot: yes exactly if the ballot told ≤ its ballot, with its last, the ballot told and all own entries
// after last. Otherwise no.
pub fn say_vote(hub: &Standing, to: Hub, last: Place, ballot: Term, out: &mut [u8]) -> usize
    requires answering { Answering (state_in hub.now.state.now) to.0 out.old }
    requires request { legal_body (state_in hub.now.state.now).kept.term (vote_request last.0 ballot.0) ≡ true }
    ensures { Said (says (who_in hub.now.caller) (state_in hub.now.state.now) to.0 (vote (state_in hub.now.state.now).kept last.0 ballot.0)) out.old result out.new }
{
    let told = ballot_told(hub.head);
    if ballot < told {
        return say_no(hub, to, out);
    }
    let body = Body::VoteYes {
        last,
        ballot: told,
        count: hub.entries_after(last),
    };
    speak(hub, to, body, last, out)
}

// Says append-no, with own length.
pub fn say_length(hub: &Standing, to: Hub, out: &mut [u8]) -> usize
    requires { Answering (state_in hub.now.state.now) to.0 out.old }
    ensures { Said (says (who_in hub.now.caller) (state_in hub.now.state.now) to.0 (append_no (len (state_in hub.now.state.now)))) out.old result out.new }
{
    let length = hub.head.length;
    speak(hub, to, Body::AppendNo { length }, length, out)
}

// Says append-yes, with this end.
pub fn say_end(hub: &Standing, to: Hub, end: Place, out: &mut [u8]) -> usize
    requires { Answering (state_in hub.now.state.now) to.0 out.old × (end.0 ≤ limit) }
    ensures { Said (says (who_in hub.now.caller) (state_in hub.now.state.now) to.0 (append_yes end.0)) out.old result out.new }
{
    speak(hub, to, Body::AppendYes { end }, hub.head.length, out)
}
