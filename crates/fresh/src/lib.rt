// A message that is for this hub and not stale: a higher term is taken first, then the message is refused or obeyed.
#![tactic(auto)]

ghost use Rattle.state.specs.Image.{state_in};
ghost use Rattle.rules.specs.Receive.{receive};
ghost use Rattle.kinds.specs.Caller.{who_in};
ghost use Rattle.refuse.specs.Received.{message_heard};
ghost use Rattle.fresh.specs.Comes.{Comes, Addressed};

use kinds::{Caller, Refusal};
use obey::Heard;
use state::Head;

// A message that is not stale: how many bytes of message were written. One with a higher term first makes the hub a follower of that term, and is not
// refused whatever follows. One of own term is refused if it contradicts, and if the rules do nothing with it.
pub fn receive_fresh(
    g: Caller,
    h: Head,
    state: &mut [u8],
    m: Heard<'_>,
    out: &mut [u8],
) -> Result<usize, Refusal>
    requires { Addressed (who_in g) h state.old m out.old }
    ensures { Comes (receive (who_in g) (state_in state.old) (message_heard m.entry.fields m.entry.lines.now)) state.old out.old result state.new out.new }
{
    let term = m.fields.term;
    if h.term < term {
        turns::raise_in(g, h, term, state);
        return Ok(obey::obey(g, state, m, out).unwrap_or(0));
    }
    if refuse::is_contradicting(h, m.fields.body) {
        return Err(Refusal::Contradicting);
    }
    obey::obey(g, state, m, out).ok_or(Refusal::NothingNew)
}
