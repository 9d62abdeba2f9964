// How a hub's bytes turn into a follower's or a candidate's, and what a restart leaves of them: what is lost is cleared, then the head is written.
#![tactic(auto)]

ghost use Rattle.std.specs.Prelude.{◌≡◌, true, ◌+◌, ◌-◌, ◌*◌, ◌≤◌, length, replicate};
ghost use Rattle.std.proofs.lemmas.List.Edits.{sets};
ghost use Rattle.kinds.specs.Sizes.{limit, row_size};
ghost use Rattle.state.specs.Image.{head_size, state_size, image, kept_in, state_in, read_kept};
ghost use Rattle.state.specs.Check.{is_some};
ghost use Rattle.rules.specs.Events.{started, restart};
ghost use Rattle.rules.specs.Receive.{follower_at};
ghost use Rattle.kinds.specs.Caller.{who_in};
ghost use Rattle.promise.specs.Promise.{Starts, Raises};

use kinds::{Caller, Term};
use state::Head;

// Clears the bytes from one place to another.
// (The library's `fill` of a part. It stays, since what is public stays.)
pub fn clear(s: &mut [u8], from: usize, to: usize)
    requires { (from ≤ to) × (to ≤ length s.old) }
    ensures { s.new ≡ sets s.old from (replicate (to - from) 0) }
{
    s[from..to].fill(0);
}

// Clears the gathered rows behind the log.
pub fn clear_gathered(h: Head, state: &mut [u8])
    requires { (h.length.0 + h.gathered.0 ≤ limit) × (length state.old ≡ state_size) }
    ensures { state.new ≡ sets state.old (head_size + h.length.0 * row_size) (replicate (h.gathered.0 * row_size) 0) }
{
    let from = head::row_after(h.length);
    let rows = u32::from(h.gathered) as usize;
    clear(state, from, from + rows * kinds::ROW);
}

// Becomes a follower of its own term or of a higher one, lost parts cleared.
pub fn raise_in(g: Caller, h: Head, t: Term, state: &mut [u8])
    requires { Raises (who_in g) h t.0 state.old }
    ensures { state.new ≡ image (follower_at (state_in state.old) t.0) }
{
    clear_gathered(h, state);
    head::write_head(state, heads::follow(h, t));
}

// Follower or candidate: term +1; candidate; voters = itself; rest of the lost parts cleared.
pub fn start_in(g: Caller, h: Head, state: &mut [u8])
    requires { Starts (who_in g) h state.old }
    ensures { state.new ≡ image (started (who_in g) (state_in state.old)) }
{
    clear_gathered(h, state);
    head::write_head(state, heads::stand(h, g.own));
}

// Lost parts cleared, follower: whatever stood in the lost parts.
pub fn restart_in(state: &mut [u8])
    requires { is_some (read_kept state.old) ≡ true }
    ensures { state.new ≡ image (restart (kept_in state.old)).state }
{
    let h = head::read_head(state);
    let end = state.len();
    clear(state, head::row_after(h.length), end);
    head::write_head(state, heads::follow(h, h.term));
}
