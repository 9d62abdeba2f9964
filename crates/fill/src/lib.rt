// The log's rows filled from entry lines: each entry goes from its line into its row, and is copied nowhere else.
#![tactic(auto)]

ghost use Rattle.std.specs.Prelude.{◌≡◌, ◌+◌, ◌*◌, ◌≤◌, length};
ghost use Rattle.std.proofs.lemmas.List.Edits.{sets};
ghost use Rattle.kinds.specs.Sizes.{row_size};
ghost use Rattle.rows.specs.Rows.{bytes_of};
ghost use Rattle.state.specs.Image.{log_row};

use entries::Entries;

// Writes the rows of entries, from a place of the state's bytes on.
pub fn put_entries(state: &mut [u8], row: usize, entries: Entries<'_>)
    requires { row + length entries * row_size ≤ length state.old }
    ensures { state.new ≡ sets state.old row (bytes_of log_row entries.entry) }
{
    for (i, entry) in entries.enumerate() {
        rows::put_row(state, row + i * kinds::ROW, entry.term, entry.command);
    }
}
