// Keys and decimal numbers as rule R27 has them, read from a lent slice. A reader is told the place to read at, and answers a value with the
// place past it. The readers of lines and of entries call these.
#![tactic(auto)]

ghost use Rattle.std.specs.Prelude.{◌+◌, ◌-◌, ◌≤◌, length, drop};
ghost use Rattle.text.specs.Decimal.{more_digits, number};
ghost use Rattle.text.specs.Range.{within, number_in};
ghost use Rattle.text.specs.Reader.{onward, literal};
ghost use Rattle.text.specs.Found.{FoundNext, FoundNumber, IsFour};

use text::{Bounds, Number};

// ---- numbers

// The digits from `at` on, behind others that make the number `first`, up to the first byte that is none.
// (The index is the place that is answered: `iter().enumerate().skip(at)` would be no shorter.)
fn digits_to(s: &[u8], at: usize, first: u32, hi: u32) -> Option<Number>
    requires { (at ≤ length s.now) × (first ≤ hi) }
    ensures { FoundNumber s.now (onward (more_digits first (drop at s.now)) (within 0 hi)) result }
{
    let mut value = first;
    for next in at..s.len() {
        let c = s[next];
        if !c.is_ascii_digit() {
            return Some(Number { value, next });
        }
        value = value.checked_mul(10)?.checked_add(u32::from(c - b'0'))?;
        if hi < value {
            return None;
        }
    }
    Some(Number {
        value,
        next: s.len(),
    })
}

// A number at most hi.
fn number_to(s: &[u8], at: usize, hi: u32) -> Option<Number>
    ensures { FoundNumber s.now (onward (number (drop at s.now)) (within 0 hi)) result }
{
    let c = *s.get(at)?;
    if !c.is_ascii_digit() {
        return None;
    }
    if c == b'0' {
        return Some(Number {
            value: 0,
            next: at + 1,
        });
    }
    let first = u32::from(c - b'0');
    if hi < first {
        return None;
    }
    digits_to(s, at + 1, first, hi)
}

// A number in a range that the byte `end` ends.
// (No `parse`: rule R27 has no 0 before other digits, the line has a range, and the place past the number is answered.)
pub fn number_in(s: &[u8], at: usize, range: Bounds, end: u8) -> Option<Number>
    ensures { FoundNumber s.now (number_in range.lo range.hi end (drop at s.now)) result }
{
    let number = number_to(s, at, range.hi)?;
    if number.value < range.lo {
        return None;
    }
    if *s.get(number.next)? != end {
        return None;
    }
    Some(Number {
        value: number.value,
        next: number.next + 1,
    })
}

// ---- literals

// The four bytes from a place on as one number, the first the lowest.
fn four(s: &[u8], at: usize) -> u32
    requires { at + 4 ≤ length s.now }
    ensures { IsFour s.now at result }
{
    u32::from_le_bytes([s[at], s[at + 1], s[at + 2], s[at + 3]])
}

// The place past the bytes of `key` from its place `from` on, if they stand from `at` on.
// (`next` goes along by hand, since it is what is answered.)
fn rest_stands(s: &[u8], at: usize, key: &[u8], from: usize) -> Option<usize>
    requires { (from ≤ length key.now) × (at + (length key.now - from) ≤ length s.now) }
    ensures { FoundNext s.now (literal (drop from key.now) (drop at s.now)) result }
{
    let mut next = at;
    for j in from..key.len() {
        if s[next] != key[j] {
            return None;
        }
        next += 1;
    }
    Some(next)
}

// The place past the bytes of `key`, if they stand from `at` on. They are compared four at a time, and what is left one at a time: with the library's
// `starts_with` a vote-no and an append-yes miss the bar of instructions that host/counted holds the reader to.
pub fn stands(s: &[u8], at: usize, key: &[u8]) -> Option<usize>
    requires { at ≤ length s.now }
    ensures { FoundNext s.now (literal key.now (drop at s.now)) result }
{
    if s.len() - at < key.len() {
        return None;
    }
    let mut i = at;
    let mut j: usize = 0;
    while 4 <= key.len() - j {
        if four(s, i) != four(key, j) {
            return None;
        }
        i += 4;
        j += 4;
    }
    rest_stands(s, i, key, j)
}
