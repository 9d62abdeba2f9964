// Entry lines written behind what an output has, from rows of 20 bytes, as a state's table has them.
#![tactic(auto)]

ghost use Rattle.std.specs.Prelude.{◌≡◌, ◌*◌, ◌≤◌, length};
ghost use Rattle.kinds.specs.Sizes.{row_size};
ghost use Rattle.message.specs.Text.{entry_text, entries_text};
ghost use Rattle.message.specs.Rows.{row_entry, row_entries};
ghost use Rattle.output.specs.Added.{Fits, Added};

use output::Output;

// The entry line of a row.
#[tactic(auto, using(output::proofs::AddedLaws::parts), unfolding(message::specs::Text::entry_text))]
fn write_row(out: &mut Output, row: &[u8])
    requires whole { length row.now ≡ row_size }
    requires room { Fits out.old (entry_text (row_entry row.now)) }
    ensures { Added out.old (entry_text (row_entry row.now)) out.new }
{
    out.put(b"entry=");
    out.number(words::get32(row, 0));
    out.put(b":");
    out.hex(&row[4..kinds::ROW]);
    out.put(b"\n");
}

// The entry lines of the first rows. The hub's step lends its own table.
// (Rows and how many of them: the hub lends its table as it lies, with more rows than the message has.)
pub fn write_rows(out: &mut Output, rows: &[u8], count: u32)
    requires rows { count * row_size ≤ length rows.now }
    requires room { Fits out.old (entries_text (row_entries count rows.now)) }
    ensures { Added out.old (entries_text (row_entries count rows.now)) out.new }
{
    for row in rows[..count as usize * kinds::ROW].chunks_exact(kinds::ROW) {
        write_row(out, row);
    }
}
