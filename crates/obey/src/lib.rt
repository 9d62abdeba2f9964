// The rule for each type of message: what a hub does with one of its term that does not contradict.
#![tactic(auto)]

ghost use Rattle.state.specs.Image.{state_in};
ghost use Rattle.rules.specs.Receive.{rule};
ghost use Rattle.kinds.specs.Caller.{who_in};
ghost use Rattle.refuse.specs.Received.{body_in};
ghost use Rattle.obey.specs.Obeyed.{Obeyed, Obeys};

mod heard;

use entries::Entries;
pub use heard::Heard;
use kinds::Caller;
use message::Body;
use replace::Append;
use standing::Standing;

// The rule for a message of the hub's term that does not contradict; its entry lines are handed on. None if it does nothing; else how many bytes of
// message it wrote.
// (One `match`: each type carries and needs something else, so a table of functions or a trait would be no plainer.)
pub fn obey(g: Caller, state: &mut [u8], m: Heard<'_>, out: &mut [u8]) -> Option<usize>
    requires { Obeys (who_in g) state.old m out.old }
    ensures { let f = m.entry.fields in
        Obeyed (rule (who_in g) (state_in state.old) f.from.0 (body_in f.body m.entry.lines.now)) state.old out.old result state.new out.new }
{
    let from = m.fields.from;
    let body = m.fields.body;
    match body {
        Body::VoteRequest { last, ballot } => {
            let hub = Standing::of(g, state);
            Some(say::say_vote(&hub, from, last, ballot, out))
        }
        Body::VoteYes { ballot, count, .. } => {
            gather::hear_yes(g, state, from, ballot, Entries::new(m.lines, count)).then_some(0)
        }
        Body::Append {
            prev,
            prevterm,
            chosen,
            count,
        } => {
            let append = Append {
                prev,
                prevterm,
                chosen,
                entries: Entries::new(m.lines, count),
            };
            Some(acknowledge::hear_append(g, state, from, append, out))
        }
        Body::AppendYes { end } => confirm::hear_end(g, state, from, end).then_some(0),
        Body::VoteNo | Body::AppendNo { .. } => None,
    }
}
