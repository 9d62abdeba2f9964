// The gathered pairs: the entries of a vote-yes go from their lines into the rows behind the log, and at each place the pair with the greater ballot stays.
// No entry is copied but into its row.
#![tactic(auto)]

ghost use Rattle.std.specs.Prelude.{◌≡◌, ◌+◌, ◌*◌, ◌≤◌, length};
ghost use Rattle.kinds.specs.Sizes.{row_size};
ghost use Rattle.rows.specs.Words.{row_words};
ghost use Rattle.pairs.specs.Gather.{row_gathered, gathered_into};

use entries::Entries;
use kinds::{Place, Term};
use rows::Words;

// One entry of this ballot comes to its row: a held pair stays unless its ballot is lower.
fn gather_row(state: &mut [u8], at: usize, held: bool, ballot: Term, c: Words)
    requires { at + row_size ≤ length state.old }
    ensures { state.new ≡ row_gathered state.old at held ballot.0 (row_words ballot.0 c) }
{
    let there = Term::from(words::get32(state, at));
    if !held || there < ballot {
        rows::put_row(state, at, ballot, c);
    }
}

// Gathers entries of this ballot into the rows from a place on, of which so many are held.
pub fn gather_in(state: &mut [u8], first: usize, held: Place, ballot: Term, entries: Entries<'_>)
    requires { first + length entries * row_size ≤ length state.old }
    ensures { state.new ≡ gathered_into state.old first held.0 ballot.0 entries.entry }
{
    let held = u32::from(held) as usize;
    for (i, entry) in entries.enumerate() {
        gather_row(
            state,
            first + i * kinds::ROW,
            i < held,
            ballot,
            entry.command,
        );
    }
}
