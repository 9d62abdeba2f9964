// The lines of a message before its entries, read from a lent text: one loop reads those of every type, by the table of fields.
#![tactic(auto)]

ghost use Rattle.std.specs.Prelude.{◌≡◌, ◌≤◌, ◌++◌, length, drop};
ghost use Rattle.message.specs.Text.{key, name, type_among, types};
ghost use Rattle.message.specs.Opening.{type_line};
ghost use Rattle.fields.specs.Table.{type_is, field_is};
ghost use Rattle.begins.specs.Lines.{seek_line};
ghost use Rattle.lines.specs.Found.{FoundKind, FoundFields, FoundLines};
ghost use Rattle.seek.specs.Spotted.{ReadNumber};
ghost use Rattle.text.specs.Line.{LF};
ghost use Rattle.text.specs.Range.{line_in};

use fields::{Field, Kind};
use message::Fields;
use seek::Wrong;
use text::{Bounds, Number};

// The types, in the order of rule R28.
static KINDS: [Kind; 6] = [
    Kind::VoteRequest,
    Kind::VoteYes,
    Kind::VoteNo,
    Kind::Append,
    Kind::AppendYes,
    Kind::AppendNo,
];

// A type, and the place past its line.
#[derive(Clone, Copy, Debug, PartialEq, Eq)]
struct TypeLine {
    kind: Kind,
    next: usize,
}

// The numbers of a type's fields, each in the slot of its field, and the place past their lines.
#[derive(Clone, Copy, Debug, PartialEq, Eq)]
struct Lines {
    numbers: [u32; 7],
    next: usize,
}

// The fields of a message, and the place past the lines that say them.
#[derive(Clone, Copy)]
pub struct Opening {
    pub fields: Fields,
    pub next: usize,
}

// ---- the line of the type

// The name of a type, with the end of its line.
// (`heading` has the names by `Body`, each in one constant with its key, and stands on no crate that reads.)
fn name_of(kind: Kind) -> &'static [u8]
    ensures { result.now ≡ name (type_is kind) ++ LF }
{
    match kind {
        Kind::VoteRequest => b"vote-request\n",
        Kind::VoteYes => b"vote-yes\n",
        Kind::VoteNo => b"vote-no\n",
        Kind::Append => b"append\n",
        Kind::AppendYes => b"append-yes\n",
        Kind::AppendNo => b"append-no\n",
    }
}

// The type whose name stands here.
// (`find_map` would have a `map` in its closure, and be no plainer.)
fn kind_in(s: &[u8], at: usize) -> Option<TypeLine>
    requires { at ≤ length s.now }
    ensures { FoundKind s.now (type_among types (drop at s.now)) result }
{
    for kind in &KINDS {
        if let Some(next) = scan::stands(s, at, name_of(*kind)) {
            return Some(TypeLine { kind: *kind, next });
        }
    }
    None
}

// The line `type`.
fn type_in(s: &[u8]) -> Option<TypeLine>
    ensures { FoundKind s.now (type_line s.now) result }
{
    let at = scan::stands(s, 0, b"type=")?;
    kind_in(s, at)
}

// ---- the lines of fields

// The line of a field, its number in a range: what it says, and the place past it; or that of its first wrong byte, looked for in the part that is none.
fn field_in(s: &[u8], at: usize, field: Field, range: Bounds) -> Result<Number, Wrong>
    requires { at ≤ length s.now }
    ensures { ReadNumber s.now (line_in (key (field_is field)) range.lo range.hi (drop at s.now)) (seek_line (key (field_is field)) range.lo range.hi (drop at s.now)) result }
{
    let at = keys::key_in(s, at, field)?;
    keys::number_in(s, at, range, text::LF)
}

// The lines of a type's fields, in order: their numbers, and the place past them; or that of the first wrong byte.
fn lines_in(s: &[u8], at: usize, kind: Kind) -> Result<Lines, Wrong>
    requires { at ≤ length s.now }
    ensures { FoundLines s.now at kind result }
{
    let mut numbers = [0; 7];
    let mut next = at;
    for field in kind.fields() {
        let range = ranges::range_of(kind, *field, &numbers);
        let read = field_in(s, next, *field, range)?;
        numbers[field.slot()] = read.value;
        next = read.next;
    }
    Ok(Lines { numbers, next })
}

// All lines before the entries.
pub fn opening_in(s: &[u8]) -> Result<Opening, Wrong>
    ensures { FoundFields s.now result }
{
    let line = type_in(s).ok_or_else(|| Wrong {
        place: typeplace::type_place(s),
    })?;
    let lines = lines_in(s, line.next, line.kind)?;
    Ok(Opening {
        fields: fields::fields_of(line.kind, &lines.numbers),
        next: lines.next,
    })
}
