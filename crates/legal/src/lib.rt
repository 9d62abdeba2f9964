// Whether bytes are the image of a legal state, or hold legal kept parts (rules R14 to R16): the head's tests, those of the rows, and that what is not
// used is zero. The gate before every event asks this, and what reports.
#![tactic(auto)]

ghost use Rattle.std.specs.Prelude.{◌≡◌, true, false, ◌+◌, ◌*◌, ◌≤◌, length, drop};
ghost use Rattle.kinds.specs.Caller.{who_in};
ghost use Rattle.kinds.specs.Sizes.{limit, row_size};
ghost use Rattle.command.specs.Words.{part};
ghost use Rattle.state.specs.Image.{head_size, state_size, read_state, read_kept};
ghost use Rattle.state.specs.Head.{head_in};
ghost use Rattle.state.specs.Check.{is_some, legal_log, legal_gathered, zeros, checked_table, Room};

use kinds::{Caller, Place, Term};
use state::Head;

// ---- the table

// n log rows from a place on: entry terms at least 1, never falling, at most the ballot; commands legal.
// (A place and how many rows, here and below: log, gathered rows and what is unused lie one behind the other in one slice.)
#[tactic(auto, using(crate::proofs::CheckSteps::log_rows))]
fn is_log(s: &[u8], from: usize, n: Place, ballot: Term) -> bool
    requires { from + n.0 * row_size ≤ length s.now }
    ensures { result ≡ legal_log 1 ballot.0 n.0 (drop from s.now) }
{
    rows::are_legal(s, from, n.into(), true, 1, ballot.into())
}

// n gathered rows from a place on: ballots at least 1 and below the term; commands legal.
#[tactic(auto, using(crate::proofs::CheckSteps::gathered_rows))]
fn is_gathered(s: &[u8], from: usize, n: Place, term: Term) -> bool
    requires { from + n.0 * row_size ≤ length s.now }
    ensures { result ≡ legal_gathered term.0 n.0 (drop from s.now) }
{
    let most = u32::from(term).saturating_sub(1);
    rows::are_legal(s, from, n.into(), false, 1, most)
}

// Nothing but zeros in so many rows from a place on. A row has four times five bytes, so their quarters are looked at side by side: a chip reads four bytes
// for one turn of the loop, or four times as many as it can take at once. `iter().fold` over the rows was tried: it takes 1.4 times as long (D49).
fn is_zero(s: &[u8], from: usize, rows: usize) -> bool
    requires { from + rows * row_size ≤ length s.now }
    ensures { result ≡ zeros (part from (rows * row_size) s.now) }
{
    let quarter = rows * (kinds::ROW / 4);
    let second = from + quarter;
    let third = second + quarter;
    let fourth = third + quarter;
    let mut clean = true;
    for i in 0..quarter {
        let front = (s[from + i] == 0) & (s[second + i] == 0);
        let back = (s[third + i] == 0) & (s[fourth + i] == 0);
        clean &= front & back;
    }
    clean
}

// Nothing but zeros behind so many rows of the table.
fn is_rest_zero(s: &[u8], rows: u32) -> bool
    requires { (length s.now ≡ state_size) × (rows ≤ limit) }
    ensures { result ≡ zeros (drop (head_size + rows * row_size) s.now) }
{
    let from = head::row_after(Place::from(rows));
    is_zero(s, from, (kinds::places() - rows) as usize)
}

// All tests of the table.
#[tactic(auto, using(crate::proofs::CheckSteps::rooms), unfolding(state::specs::Check::checked_table))]
fn is_legal_table(h: Head, s: &[u8]) -> bool
    requires { Room s.now × (h ≡ head_in s.now) }
    ensures { result ≡ checked_table s.now }
{
    is_log(s, state::HEAD, h.length, h.ballot)
        && is_gathered(s, head::row_after(h.length), h.gathered, h.term)
        && is_rest_zero(s, u32::from(h.length) + u32::from(h.gathered))
}

// ---- the whole

// Whether the bytes are the image of a legal state of the hub that is called.
pub fn is_legal(g: Caller, s: &[u8]) -> bool
    ensures { result ≡ is_some (read_state (who_in g) s.now) }
{
    if s.len() != state::state_bytes() {
        return false;
    }
    let h = head::read_head(s);
    roles::is_legal_head(g, h, s) && is_legal_table(h, s)
}

// Whether the kept parts in the bytes are legal; the lost parts are not looked at.
pub fn is_kept_legal(s: &[u8]) -> bool
    ensures { result ≡ is_some (read_kept s.now) }
{
    if s.len() != state::state_bytes() {
        return false;
    }
    let h = head::read_head(s);
    roles::is_kept_head(h) && is_log(s, state::HEAD, h.length, h.ballot)
}
