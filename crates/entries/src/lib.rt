// The entry lines of messages, read from a lent text, where they stay: as many as follow a message's fields are checked, and each of those can then be
// taken by itself.
#![tactic(auto)]

ghost use Rattle.std.specs.Prelude.{◌≡◌, ◌≤◌, length, drop};
ghost use Rattle.kinds.specs.Sizes.{term_most};
ghost use Rattle.std.specs.Iterator.{YieldsFirstBy, item_count};
ghost use Rattle.text.specs.Found.{Found};
ghost use Rattle.text.specs.Reader.{lost};
ghost use Rattle.message.specs.Range.{entry_in};
ghost use Rattle.message.specs.Walk.{entry_line, entries_from, Lie};
ghost use Rattle.begins.specs.Entries.{seek_entry};
ghost use Rattle.seek.specs.Spotted.{ReadNumber};
ghost use Rattle.entries.specs.Found.{entry_of, FoundTail, FoundEntries, term_of};

use kinds::Term;
use rows::Words;
use seek::Wrong;
use std::marker::Model;
use text::{Bounds, Number};

// The byte between an entry's term and its command.
const COLON: u8 = b':';

// An entry: its term, and its command by words.
#[derive(Clone, Copy)]
pub struct Entry {
    pub term: Term,
    pub command: Words,
}

// The bytes of the key `entry=`.
const KEY: usize = 6;
// The bytes behind an entry's colon: the digits of its command and the end of the line.
const TAIL: usize = digits::MANY + 1;

// The entry of the line that stands at a place, and the place past it. Whoever walks over lines has had them checked, so nothing is checked here: a key is
// stepped over, and digits are made words.
pub fn next_entry(s: &[u8], at: usize) -> (Entry, usize)
    requires { entry_line 1 term_most (drop at s.now) ≡ lost → ⊥ }
    ensures { Found s.now (entry_line 1 term_most (drop at s.now)) (entry_of result.0) result.1 }
{
    let terms = Bounds {
        lo: 1,
        hi: kinds::TERM_MOST,
    };
    let term = scan::number_in(s, at + KEY, terms, COLON).unwrap();
    let entry = Entry {
        term: Term::from(term.value),
        command: digits::words_of(s, term.next),
    };
    (entry, term.next + TAIL)
}

// ---- a walk over entry lines

// Entry lines that were checked, and how many of them are left: seen as the list of their entries. They stay where they lie.
#[derive(Drop)]
pub struct Entries<'a> {
    lines: &'a [u8],
    left: u32,
}

impl<'a> Model for Entries<'a> {
    ghost use Rattle.std.specs.Prelude.{List};
    ghost use Rattle.command.specs.Entry.{Entry};
    ghost use Rattle.message.specs.Walk.{entries_from, Lie};

    ghost Value = { List Entry };

    ghost view = { λ e. entries_from e.left e.lines.now };

    ghost invariant = { λ e. Lie e.left e.lines.now };
}

impl<'a> Entries<'a> {
    // So many entry lines, which these bytes are.
    pub fn new(lines: &'a [u8], count: u32) -> Entries<'a>
        requires { Lie count lines.now }
        ensures { result ≡ entries_from count lines.entry.now }
    {
        Entries { lines, left: count }
    }

    // How many are left.
    pub fn many(&self) -> u32
        ensures { result ≡ length self.now }
    {
        self.left
    }
}

impl<'a> Iterator for Entries<'a> {
    type Item = Entry;

    ghost next_gives = { YieldsFirstBy entry_of (λ es. es) };

    ghost remaining = { item_count (λ es. es) };

    fn next(&mut self) -> Option<Entry> {
        if self.left == 0 {
            return None;
        }
        let (entry, next) = next_entry(self.lines, 0);
        self.lines = &self.lines[next..];
        self.left -= 1;
        Some(entry)
    }
}

// ---- lines that are checked

// Whether the digits of a legal command and the end of its line stand at a place.
fn is_tail(s: &[u8], at: usize) -> bool
    requires { at ≤ length s.now }
    ensures { FoundTail s.now at result }
{
    if s.len() - at < TAIL {
        return false;
    }
    digits::are_legal(s, at) && s[at + digits::MANY] == text::LF
}

// The entry line at a place, its term in a range and its command legal: its term, and the place past it; or that of its first wrong byte, looked for in
// the part that is none.
// (lo ≤ hi is asked, not promised by `Bounds`: the range of no entries is 1 to 0 (`span`).)
fn entry_in(s: &[u8], at: usize, terms: Bounds) -> Result<Number, Wrong>
    requires { (at ≤ length s.now) × (terms.lo ≤ terms.hi) }
    ensures { ReadNumber s.now (term_of (entry_in terms.lo terms.hi (drop at s.now))) (seek_entry terms.lo terms.hi (drop at s.now)) result }
{
    let p = keys::literal_in(s, at, b"entry=")?;
    let term = keys::number_in(s, p, terms, COLON)?;
    if !is_tail(s, term.next) {
        return Err(Wrong {
            place: commandplace::tail_place(s, term.next),
        });
    }
    Ok(Number {
        value: term.value,
        next: term.next + TAIL,
    })
}

// So many entry lines, their terms in a range and never falling: the place past them, or that of their first wrong byte.
pub fn entries_in(s: &[u8], at: usize, count: u32, terms: Bounds) -> Result<usize, Wrong>
    requires { (at ≤ length s.now) × (terms.lo ≤ terms.hi) }
    ensures { FoundEntries s.now at count terms.lo terms.hi result }
{
    let mut next = at;
    let mut least = terms.lo;
    for _ in 0..count {
        let term = entry_in(
            s,
            next,
            Bounds {
                lo: least,
                hi: terms.hi,
            },
        )?;
        next = term.next;
        least = term.value;
    }
    Ok(next)
}
