// Rows of 20 bytes, in a state's table or lent beside a message that is to be written: their commands by words, and whether rows are legal.
#![tactic(auto)]

ghost use Rattle.std.specs.Prelude.{◌≡◌, cond, ◌+◌, ◌*◌, ◌≤◌, length, drop};
ghost use Rattle.std.proofs.lemmas.List.Edits.{sets};
ghost use Rattle.kinds.specs.Sizes.{row_size};
ghost use Rattle.command.specs.Command.{command_size};
ghost use Rattle.rows.specs.Rows.{row_of, rows_in, legal_rows};
ghost use Rattle.rows.specs.Words.{words_at, words_bytes, row_words, renumbered};

use kinds::Term;

// A command by its four words, as they stand in its bytes; motor and kind share the first.
#[derive(Clone, Copy, Debug, PartialEq, Eq)]
pub struct Words {
    pub what: u32,
    pub duration: u32,
    pub a: u32,
    pub b: u32,
}

// ---- commands and rows by their words

// The words of the command in the 16 bytes from a place on.
pub fn words_at(s: &[u8], at: usize) -> Words
    requires { at + command_size ≤ length s.now }
    ensures { result ≡ words_at at s.now }
{
    Words {
        what: words::get32(s, at),
        duration: words::get32(s, at + 4),
        a: words::get32(s, at + 8),
        b: words::get32(s, at + 12),
    }
}

// Writes the 16 bytes of a command.
#[tactic(auto, using(crate::proofs::WordsLaws::words_written))]
pub fn put_words(s: &mut [u8], at: usize, c: Words)
    requires { at + command_size ≤ length s.old }
    ensures { s.new ≡ sets s.old at (words_bytes c) }
{
    words::put32(s, at, c.what);
    words::put32(s, at + 4, c.duration);
    words::put32(s, at + 8, c.a);
    words::put32(s, at + 12, c.b);
}

// Writes a row: its number, which is an entry's term or a gathered pair's ballot, and its command.
#[tactic(auto, using(crate::proofs::WordsLaws::row_written))]
pub fn put_row(s: &mut [u8], at: usize, t: Term, c: Words)
    requires { at + row_size ≤ length s.old }
    ensures { s.new ≡ sets s.old at (row_words t.0 c) }
{
    words::put32(s, at, t.into());
    put_words(s, at + 4, c);
}

// Gives n rows from a place on this term; their commands stay.
// (A place and a count, not a part of the slice: the definition `renumbered` speaks of a place in the state's bytes.)
pub fn renumber(s: &mut [u8], from: usize, n: u32, t: Term)
    requires { from + n * row_size ≤ length s.old }
    ensures { s.new ≡ renumbered s.old from n t.0 }
{
    for i in 0..n as usize {
        // (A proof knows nothing of what `chunks_exact_mut` leaves in the slice.)
        words::put32(s, from + i * kinds::ROW, t.into());
    }
}

// ---- legal rows

// Whether n rows from a place on are legal: numbers from low to high, where they have to rise none below the one before; commands legal.
// (`rising`, `low` and `high` are those of `legal_rows`: a struct of them would be made in each of three calls, and taken apart here.)
pub fn are_legal(s: &[u8], from: usize, n: u32, rising: bool, low: u32, high: u32) -> bool
    requires { from + n * row_size ≤ length s.now }
    ensures { result ≡ legal_rows rising low high (rows_in row_of n (drop from s.now)) }
{
    let mut least = low;
    for row in s[from..from + n as usize * kinds::ROW].chunks_exact(kinds::ROW) {
        let t = words::get32(row, 0);
        if !((least <= t) & (t <= high) & lawful::is_legal_at(row, 4)) {
            return false;
        }
        if rising {
            least = t;
        }
    }
    true
}
