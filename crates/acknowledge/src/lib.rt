// An append is taken, and its sender told: its end if it fitted, the own length if not.
#![tactic(auto)]

ghost use Rattle.state.specs.Image.{state_in};
ghost use Rattle.rules.specs.Receive.{heard_append};
ghost use Rattle.kinds.specs.Caller.{who_in};
ghost use Rattle.promise.specs.Promise.{HearsAppend};
ghost use Rattle.say.specs.Said.{Answering};
ghost use Rattle.acknowledge.specs.Answered.{Answered};

use kinds::{Caller, Hub};
use replace::Append;
use standing::Standing;

// An append: taken if it fits, and answered. append-yes with its end if it fitted, append-no with own length if not.
pub fn hear_append(
    g: Caller,
    state: &mut [u8],
    from: Hub,
    append: Append<'_>,
    out: &mut [u8],
) -> usize
    requires { HearsAppend (who_in g) state.old append.prev.0 append.prevterm.0 append.chosen.0 append.entries × Answering (state_in state.old) from.0 out.old }
    ensures { let a = append.entry in
        Answered (heard_append (who_in g) (state_in state.old) from.0 a.prev.0 a.prevterm.0 a.chosen.0 a.entries) state.old out.old result state.new out.new }
{
    let end = append.end();
    let fitted = replace::take_append(g, state, append);
    let hub = Standing::of(g, state);
    if fitted {
        return say::say_end(&hub, from, end, out);
    }
    say::say_length(&hub, from, out)
}
