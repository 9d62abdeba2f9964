// The first wrong byte within literals and numbers (rule R46), looked for after a refusal. A reader here is told the place to read at, and answers the place
// past what it read, or that of the byte that is wrong: the end of the text, if it ends too soon. A digit is wrong if no number of the range begins so.
#![tactic(auto)]

ghost use Rattle.std.specs.Prelude.{◌≡◌, ◌<◌, ◌≤◌, length, drop};
ghost use Rattle.begins.specs.Seek.{seek_literal};
ghost use Rattle.begins.specs.Digits.{grows, seek_end, seek_more, seek_number};
ghost use Rattle.seek.specs.Spotted.{SpottedText, SpottedNumber, Ends, same_bytes, ended_at};

use text::{Bounds, Number};

// The text is wrong, first at the byte that stands here.
#[derive(Clone, Copy, Debug, PartialEq, Eq)]
pub struct Wrong {
    pub place: usize,
}

// ---- literals

// How many bytes of `key` the text begins with.
#[tactic(auto, using(crate::proofs::LiteralLaws::same_fits))]
fn same_bytes(text: &[u8], key: &[u8]) -> usize
    ensures value { result ≡ same_bytes key.now text.now }
    ensures bound { result ≤ length text.now }
{
    key.iter().zip(text).take_while(|(k, c)| k == c).count()
}

// The place past the bytes of `key`, which are looked for from `at` on.
pub fn literal_at(s: &[u8], at: usize, key: &[u8]) -> Result<usize, Wrong>
    requires { at ≤ length s.now }
    ensures { SpottedText s.now (seek_literal key.now (drop at s.now)) result }
{
    let many = same_bytes(&s[at..], key);
    if many == key.len() {
        Ok(at + many)
    } else {
        Err(Wrong { place: at + many })
    }
}

// The place past a literal, or that of its first wrong byte.
pub fn literal_place(s: &[u8], at: usize, key: &[u8]) -> usize
    requires { at ≤ length s.now }
    ensures { Ends s.now (seek_literal key.now (drop at s.now)) result }
{
    literal_at(s, at, key).unwrap_or_else(|wrong| wrong.place)
}

// ---- decimal numbers

// Whether some number of the range begins with the digits of v.
// (No `for`: nothing is counted here. Both ends lose a digit until v is among them or above.)
fn can_grow(range: Bounds, v: u64) -> bool
    requires { 1 ≤ v }
    ensures { result ≡ grows range.hi range.lo range.hi v }
{
    let mut l = u64::from(range.lo);
    let mut h = u64::from(range.hi);
    while v <= h {
        if l <= v {
            return true;
        }
        l /= 10;
        h /= 10;
    }
    false
}

// What is found at the byte c at a place, which is no digit, behind the digits of v.
#[tactic(auto, unfolding(crate::specs::Spotted::ended_at))]
fn ended(c: u8, place: usize, range: Bounds, end: u8, v: u32) -> Result<Number, Wrong>
    requires { place < 18_446_744_073_709_551_615 }
    ensures { result ≡ ended_at c place range.lo range.hi end v }
{
    if c == end && range.contains(v) {
        Ok(Number {
            value: v,
            next: place + 1,
        })
    } else {
        Err(Wrong { place })
    }
}

// Behind the digits of `first`.
// (The index is the place that is answered: `iter().enumerate().skip(at)` would be no shorter.)
fn more_at(s: &[u8], at: usize, range: Bounds, end: u8, first: u32) -> Result<Number, Wrong>
    requires { (at ≤ length s.now) × (1 ≤ first) × (first ≤ range.hi) }
    ensures { SpottedNumber s.now (seek_more range.lo range.hi end first (drop at s.now)) result }
{
    let mut value = first;
    for place in at..s.len() {
        let c = s[place];
        if !c.is_ascii_digit() {
            return ended(c, place, range, end, value);
        }
        let longer = u64::from(value) * 10 + u64::from(c - b'0');
        if !can_grow(range, longer) {
            return Err(Wrong { place });
        }
        value = longer as u32;
    }
    Err(Wrong { place: s.len() })
}

// The byte `end`, behind the digit 0.
fn zero_at(s: &[u8], at: usize, end: u8) -> Result<Number, Wrong>
    requires { at ≤ length s.now }
    ensures { SpottedNumber s.now (seek_end end (drop at s.now)) result }
{
    let next = literal_at(s, at, &[end])?;
    Ok(Number { value: 0, next })
}

// A number in a range that the byte `end` ends.
pub fn number_at(s: &[u8], at: usize, range: Bounds, end: u8) -> Result<Number, Wrong>
    requires { at ≤ length s.now }
    ensures { SpottedNumber s.now (seek_number range.lo range.hi end (drop at s.now)) result }
{
    let wrong = Wrong { place: at };
    let c = *s.get(at).ok_or(wrong)?;
    if !c.is_ascii_digit() {
        return Err(wrong);
    }
    if c == b'0' {
        if range.lo != 0 {
            return Err(wrong);
        }
        return zero_at(s, at + 1, end);
    }
    let first = u32::from(c - b'0');
    if !can_grow(range, u64::from(first)) {
        return Err(wrong);
    }
    more_at(s, at + 1, range, end, first)
}

// The place past a number, or that of its first wrong byte.
// (Like `literal_place` but for what is looked for: one line each.)
pub fn number_place(s: &[u8], at: usize, range: Bounds, end: u8) -> usize
    requires { at ≤ length s.now }
    ensures { Ends s.now (seek_number range.lo range.hi end (drop at s.now)) result }
{
    number_at(s, at, range, end).map_or_else(|wrong| wrong.place, |number| number.next)
}
