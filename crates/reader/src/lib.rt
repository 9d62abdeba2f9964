// Reading messages from a lent text, where their entries stay, as rules R27 to R31 have it; of a text that is none, where it is wrong (rule R46).
#![tactic(auto)]

ghost use Rattle.std.specs.Prelude.{◌≤◌, ◌<◌, length};
ghost use Rattle.message.specs.Text.{read, part_from, part_to};
ghost use Rattle.entries.specs.Found.{FoundEntries};
ghost use Rattle.reader.specs.Answer.{Reads};
ghost use Rattle.reader.specs.Part.{IsPart, IsRest};

use message::Fields;
use seek::Wrong;
use span::Span;

// A message that was read: its fields, and where its entry lines begin. A text that is none is refused with outcome 4, and the place of its first wrong byte.
// (A place, and no slice: C is given it (docs/FORMS.md). `lines_of` cuts the text there.)
#[derive(Clone, Copy)]
pub struct Read {
    pub fields: Fields,
    pub entries: usize,
}

// The place past the entry lines that follow; or that of their first wrong byte.
fn entries_end(s: &[u8], next: usize, span: Span) -> Result<usize, Wrong>
    requires { (next ≤ length s.now) × (0 < span.count → span.terms.lo ≤ span.terms.hi) }
    ensures { FoundEntries s.now next span.count span.terms.lo span.terms.hi result }
{
    match span.count {
        // Most messages have no entries: nothing is called for them. Most others have one; and two calls of `entries_in` leave its loop by itself (D57).
        0 => Ok(next),
        1 => entries::entries_in(s, next, 1, span.terms),
        count => entries::entries_in(s, next, count, span.terms),
    }
}

// Reads a message: its fields, and where its entry lines begin in the text. They go to the text's end. The place of a wrong byte is looked for only once
// the text is refused.
pub fn read_message(s: &[u8]) -> Result<Read, Wrong>
    ensures { Reads s.now result }
{
    let room = kinds::text_room();
    if room < s.len() {
        return Err(Wrong { place: room });
    }
    let opening = lines::opening_in(s)?;
    let end = entries_end(s, opening.next, span::span_of(opening.fields))?;
    if end != s.len() {
        return Err(Wrong { place: end });
    }
    Ok(Read {
        fields: opening.fields,
        entries: opening.next,
    })
}

// ---- the part of a text that holds the entry lines

// The text from a place on, and no copy of it; from a place beyond the end, the empty part at the end.
pub fn lines_of(s: &[u8], entries: usize) -> &[u8]
    ensures { IsRest s.entry entries result }
{
    &s[entries.min(s.len())..]
}

// The part of the text that holds the entry lines, and no copy of it: empty at the end of the text without entry lines, and empty at
// its start on a refusal.
pub fn entry_lines(s: &[u8]) -> &[u8]
    ensures { IsPart s.entry (part_from s.now (read s.now)) (part_to s.now (read s.now)) result }
{
    match read_message(s) {
        Ok(read) => lines_of(s, read.entries),
        Err(_) => &s[..0],
    }
}
