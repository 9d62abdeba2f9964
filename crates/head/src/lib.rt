// The head of a state read from lent bytes and written into them, and where the rows of the table stand behind it.
#![tactic(auto)]

ghost use Rattle.std.specs.Prelude.{◌≡◌, map, ◌++◌, ◌+◌, ◌*◌, ◌≤◌, eqb, length, drop};
ghost use Rattle.std.proofs.lemmas.List.Edits.{sets};
ghost use Rattle.kinds.specs.Of.{place};
ghost use Rattle.kinds.specs.Sizes.{hubs_most, row_size};
ghost use Rattle.command.specs.Words.{part};
ghost use Rattle.rows.specs.Rows.{bytes_of};
ghost use Rattle.state.specs.Image.{head_size, flags, words_in};
ghost use Rattle.state.specs.Head.{head_in, place_bytes, number_bytes, bytes_of_head};

use kinds::Place;
use state::Head;
use std::array;

// ---- reading the head

// A place for each of the seven hubs.
fn places_at(s: &[u8], at: usize) -> [Place; 7]
    requires { at + hubs_most * 4 ≤ length s.now }
    ensures { result ≡ map place (words_in hubs_most (drop at s.now)) }
{
    array::from_fn(|i| Place::from(words::get32(s, at + i * 4)))
}

// Whether each of the seven hubs is among the voters.
// (Like `places_at` but for the width and the read: a generic one would take both, and be no shorter.)
fn voters_at(s: &[u8], at: usize) -> [bool; 7]
    requires { at + hubs_most ≤ length s.now }
    ensures { result ≡ map (λ b. eqb b 1) (part at hubs_most s.now) }
{
    array::from_fn(|i| s[at + i] == 1)
}

// The head that the bytes hold, legal or not.
// (Any slice of 56 bytes or more, not an array: the head is the first part of the state's bytes, which stay one slice.)
pub fn read_head(s: &[u8]) -> Head
    requires { head_size ≤ length s.now }
    ensures { result ≡ head_in s.now }
{
    Head {
        term: words::get32(s, 0).into(),
        ballot: words::get32(s, 4).into(),
        chosen: words::get32(s, 8).into(),
        length: words::get32(s, 12).into(),
        gathered: words::get32(s, 16).into(),
        role: s[20],
        voters: voters_at(s, 21),
        confirmed: places_at(s, 28),
    }
}

// ---- writing the head

// Writes the head's five numbers.
fn put_numbers(s: &mut [u8], h: Head)
    requires { head_size ≤ length s.old }
    ensures { s.new ≡ sets s.old 0 (number_bytes h) }
{
    words::put32(s, 0, h.term.into());
    words::put32(s, 4, h.ballot.into());
    words::put32(s, 8, h.chosen.into());
    words::put32(s, 12, h.length.into());
    words::put32(s, 16, h.gathered.into());
}

// Writes a byte for each voter: 1 for one that was seen.
fn put_voters(s: &mut [u8], at: usize, vs: [bool; 7])
    requires { at + hubs_most ≤ length s.old }
    ensures { s.new ≡ sets s.old at (flags vs) }
{
    for (i, v) in vs.iter().enumerate() {
        s[at + i] = u8::from(*v);
    }
}

// Writes four bytes for each place. (Like `put_voters` but for the width and the write: a generic one would take both, and be no shorter.)
fn put_places(s: &mut [u8], at: usize, ps: [Place; 7])
    requires { at + hubs_most * 4 ≤ length s.old }
    ensures { s.new ≡ sets s.old at (bytes_of place_bytes ps) }
{
    for (i, p) in ps.iter().enumerate() {
        words::put32(s, at + i * 4, (*p).into());
    }
}

// Writes what is held for each of the seven hubs.
fn put_hubs(s: &mut [u8], at: usize, vs: [bool; 7], ps: [Place; 7])
    requires { at + hubs_most * 5 ≤ length s.old }
    ensures { s.new ≡ sets s.old at (flags vs ++ bytes_of place_bytes ps) }
{
    put_voters(s, at, vs);
    put_places(s, at + 7, ps);
}

// Writes a head over the first bytes; the others stay.
pub fn write_head(s: &mut [u8], h: Head)
    requires { head_size ≤ length s.old }
    ensures { s.new ≡ sets s.old 0 (bytes_of_head h) }
{
    put_numbers(s, h);
    s[20] = h.role;
    put_hubs(s, 21, h.voters, h.confirmed);
}

// ---- what stands behind it

// Where the row after a place of the log stands: that of place 1 stands after place 0.
pub fn row_after(p: Place) -> usize
    ensures { result ≡ head_size + p.0 * row_size }
{
    state::HEAD + u32::from(p) as usize * kinds::ROW
}
