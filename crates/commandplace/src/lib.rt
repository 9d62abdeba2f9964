// The place of the first wrong byte of a command's hex digits and of the end of its line (rule R46), each number in the range that its kind fixes. The
// reader of entries calls this, once they are none.
#![tactic(auto)]

ghost use Rattle.std.specs.Prelude.{◌≡◌, ℕ, ◌≤◌, length, drop};
ghost use Rattle.begins.specs.Digits.{fits};
ghost use Rattle.begins.specs.Commands.{seek_hex, duration_range, a_range, b_range};
ghost use Rattle.begins.specs.Entries.{seek_rest, seek_command};
ghost use Rattle.seek.specs.Spotted.{SpottedNumber, Ends};
ghost use Rattle.commandplace.specs.Passed.{IsDigit, range_is, Passed, seek_tail};

use seek::Wrong;
use text::{Bounds, Number};

// ---- hex digits

// The value of a hex digit.
// (Not `to_digit`, which takes the letters A to F too.)
fn digit_of(c: u8) -> Option<u8>
    ensures { IsDigit c result }
{
    match c {
        b'0'..=b'9' => Some(c - b'0'),
        b'a'..=b'f' => Some(10 + (c - b'a')),
        _ => None,
    }
}

// Whether some number of the range is v with so many more hex digits.
fn can_fit(many: usize, range: Bounds, v: u64) -> bool
    ensures { result ≡ fits 16 many range.lo range.hi v }
{
    let mut l = u64::from(range.lo);
    let mut h = u64::from(range.hi);
    for _ in 0..many {
        l /= 16;
        h /= 16;
    }
    l <= v && v <= h
}

// So many hex digits of a number in a range.
// (By index, which tells how many digits are left and where the text ended too soon: a `zip` would only end there.)
#[tactic(auto, unfolding(begins::specs::Commands::seek_hex))]
fn hex_at(s: &[u8], at: usize, many: usize, range: Bounds) -> Result<Number, Wrong>
    requires { at ≤ length s.now }
    ensures { SpottedNumber s.now (seek_hex many (range_is range) (drop at s.now)) result }
{
    let mut value = 0;
    for i in 0..many {
        let wrong = Wrong { place: at + i };
        let c = *s.get(at + i).ok_or(wrong)?;
        let digit = digit_of(c).ok_or(wrong)?;
        let longer = u64::from(value) * 16 + u64::from(digit);
        if !can_fit(many - 1 - i, range, longer) {
            return Err(wrong);
        }
        value = longer as u32;
    }
    Ok(Number {
        value,
        next: at + many,
    })
}

// ---- the ranges of a command's numbers, by its kind

// A stop lasts no time, and any other command up to ten minutes, in milliseconds.
// (The kind stays a number here and below: it was read as one, and the definitions `seek_rest` and `duration_range` speak of it so.)
#[tactic(auto, unfolding(begins::specs::Commands::duration_range))]
fn duration_range(kind: u32) -> Bounds
    ensures { range_is result ≡ duration_range kind }
{
    if kind == 0 {
        Bounds { lo: 0, hi: 0 }
    } else {
        Bounds { lo: 1, hi: 600_000 }
    }
}

// A stop has no gain.
#[tactic(auto, unfolding(begins::specs::Commands::a_range))]
fn a_range(kind: u32) -> Bounds
    ensures { range_is result ≡ a_range kind }
{
    let hi = if kind == 0 { 0 } else { command::GAIN_MOST };
    Bounds { lo: 0, hi }
}

// Only a ramp has a second gain.
// (Like `a_range` but for the kind that has the gain: each has its own definition, and is one line.)
#[tactic(auto, unfolding(begins::specs::Commands::b_range))]
fn b_range(kind: u32) -> Bounds
    ensures { range_is result ≡ b_range kind }
{
    let hi = if kind == 2 { command::GAIN_MOST } else { 0 };
    Bounds { lo: 0, hi }
}

// ---- a command

// The numbers of a command behind its motor and kind: the place past them.
fn rest_at(s: &[u8], at: usize, kind: u32) -> Result<usize, Wrong>
    requires { at ≤ length s.now }
    ensures { (motor : ℕ) → Passed s.now (seek_rest motor kind (drop at s.now)) result }
{
    let duration = hex_at(s, at, 8, duration_range(kind))?;
    let a = hex_at(s, duration.next, 8, a_range(kind))?;
    let b = hex_at(s, a.next, 8, b_range(kind))?;
    Ok(b.next)
}

// The digits of a legal command: the place past them.
fn command_at(s: &[u8], at: usize) -> Result<usize, Wrong>
    requires { at ≤ length s.now }
    ensures { Passed s.now (seek_command (drop at s.now)) result }
{
    let motor = hex_at(s, at, 4, Bounds { lo: 1, hi: 64 })?;
    let kind = hex_at(s, motor.next, 4, Bounds { lo: 0, hi: 2 })?;
    rest_at(s, kind.next, kind.value)
}

// The digits of a legal command and the end of its line: the place past them, or that of their first wrong byte.
pub fn tail_place(s: &[u8], at: usize) -> usize
    requires { at ≤ length s.now }
    ensures { Ends s.now (seek_tail (drop at s.now)) result }
{
    match command_at(s, at) {
        Ok(next) => seek::literal_place(s, next, b"\n"),
        Err(wrong) => wrong.place,
    }
}
