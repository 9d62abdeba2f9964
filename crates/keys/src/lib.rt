// A field's key, any literal and a number, each read from a lent text; or the place of its first wrong byte (rules R30, R46). What reads is inlined where
// lines are read, and the search for a wrong byte is not: so the text stays in registers (D57).
#![tactic(auto)]

ghost use Rattle.std.specs.Prelude.{◌≡◌, ◌≤◌, length, drop};
ghost use Rattle.text.specs.Reader.{literal};
ghost use Rattle.message.specs.Text.{key};
ghost use Rattle.fields.specs.Table.{field_is};
ghost use Rattle.begins.specs.Seek.{seek_literal};
ghost use Rattle.begins.specs.Digits.{seek_number};
ghost use Rattle.seek.specs.Spotted.{Ends, ReadNumber, ReadText};
ghost use Rattle.text.specs.Range.{number_in};

use fields::Field;
use seek::Wrong;
use text::{Bounds, Number};

// The first wrong byte of a literal that does not stand there.
#[cold]
#[inline(never)]
fn wrong_literal(s: &[u8], at: usize, key: &[u8]) -> Wrong
    requires { at ≤ length s.now }
    ensures { Ends s.now (seek_literal key.now (drop at s.now)) result.place }
{
    Wrong {
        place: seek::literal_place(s, at, key),
    }
}

// The place past a literal; or that of its first wrong byte, looked for once something else stands there.
#[inline(always)]
pub fn literal_in(s: &[u8], at: usize, key: &[u8]) -> Result<usize, Wrong>
    requires { at ≤ length s.now }
    ensures { ReadText s.now (literal key.now (drop at s.now)) (seek_literal key.now (drop at s.now)) result }
{
    scan::stands(s, at, key).ok_or_else(|| wrong_literal(s, at, key))
}

// The place past the key of a field; or that of its first wrong byte. (A match, so that each key is compared as a constant: a table of
// keys, looked up by the field, says no less, and with it a vote-no took a fifth more instructions.)
pub fn key_in(s: &[u8], at: usize, field: Field) -> Result<usize, Wrong>
    requires { at ≤ length s.now }
    ensures { ReadText s.now (literal (key (field_is field)) (drop at s.now)) (seek_literal (key (field_is field)) (drop at s.now)) result }
{
    match field {
        Field::Term => literal_in(s, at, b"term="),
        Field::From => literal_in(s, at, b"from="),
        Field::To => literal_in(s, at, b"to="),
        Field::Last => literal_in(s, at, b"last="),
        Field::Ballot => literal_in(s, at, b"ballot="),
        Field::Count => literal_in(s, at, b"count="),
        Field::Prev => literal_in(s, at, b"prev="),
        Field::Prevterm => literal_in(s, at, b"prevterm="),
        Field::Chosen => literal_in(s, at, b"chosen="),
        Field::End => literal_in(s, at, b"end="),
        Field::Length => literal_in(s, at, b"length="),
    }
}

// The first wrong byte of a number that is none.
#[cold]
#[inline(never)]
fn wrong_number(s: &[u8], at: usize, range: Bounds, end: u8) -> Wrong
    requires { at ≤ length s.now }
    ensures { Ends s.now (seek_number range.lo range.hi end (drop at s.now)) result.place }
{
    Wrong {
        place: seek::number_place(s, at, range, end),
    }
}

// A number in a range that the byte `end` ends; or the place of its first wrong byte, looked for once none stands there.
// (Like `literal_in` but for what is read and what is sought: a generic one would take both as closures, and be no shorter.)
#[inline(always)]
pub fn number_in(s: &[u8], at: usize, range: Bounds, end: u8) -> Result<Number, Wrong>
    requires { at ≤ length s.now }
    ensures { ReadNumber s.now (number_in range.lo range.hi end (drop at s.now)) (seek_number range.lo range.hi end (drop at s.now)) result }
{
    scan::number_in(s, at, range, end).ok_or_else(|| wrong_number(s, at, range, end))
}
