// Hex digits read eight at a time from a lent slice, as numbers in which each digit is a byte: whether 32 of them are a legal command's, which makes no
// number of them; and the words of a command whose digits are known to stand there. Who reads entries calls these.
#![tactic(auto)]

ghost use Rattle.std.specs.Prelude.{◌≡◌, cond, ◌+◌, ◌≤◌, length, drop};
ghost use Rattle.text.specs.Reader.{lost};
ghost use Rattle.text.specs.Hex.{hex_bytes};
ghost use Rattle.command.specs.Words.{word};
ghost use Rattle.command.specs.Command.{command_size};
ghost use Rattle.digits.specs.Digits.{all_digits, legal_digits, digits_size};
ghost use Rattle.digits.specs.Found.{IsWordOf, FoundWords};
ghost use Rattle.digits.specs.Legal.{Tells};

use rows::Words;

// How many digits a command has.
pub const MANY: usize = 32;

// ---- a legal command's digits

// As numbers in which each digit is a byte. They are written out, for a constant's value can't call `from_be_bytes`.

// The digits 0001: the first motor.
const MOTOR_LEAST: u32 = 0x3030_3031;
// 0040: the last motor, 64.
const MOTOR_MOST: u32 = 0x3030_3430;
// 0000: the kind of a stop.
const STOP: u32 = 0x3030_3030;
// 0002: the kind of a ramp, the last.
const RAMP: u32 = 0x3030_3032;
// 00000000: no duration, no gain.
const NONE: u64 = 0x3030_3030_3030_3030;
// 00000001: the shortest duration, in ms.
const DURATION_LEAST: u64 = 0x3030_3030_3030_3031;
// 000927c0: the longest, 600,000.
const DURATION_MOST: u64 = 0x3030_3039_3237_6330;
// 3f800000: the greatest gain, 1.0.
const GAIN_MOST: u64 = 0x3366_3830_3030_3030;

// Whether eight bytes are hex digits, all of them looked at at once: the highest bit of each byte tells of it alone, since no sum here leaves its byte.
fn are_digits(x: u64) -> bool
    ensures { result ≡ all_digits (word 8 x) }
{
    let y = x & 0x7f7f_7f7f_7f7f_7f7f;
    // From the byte behind 9 to the one before a.
    let between = (y + 0x4646_4646_4646_4646) ^ (y + 0x1f1f_1f1f_1f1f_1f1f);
    // Behind f, and before 0.
    let outside = (y + 0x1919_1919_1919_1919) | (0xafaf_afaf_afaf_afaf - y);
    (between | outside | x) & 0x8080_8080_8080_8080 == 0
}

// One of two limits. (With four `if`s in place of its calls there are sixteen ways to prove.)
fn pick(test: bool, a: u64, b: u64) -> u64
    ensures { result ≡ cond test a b }
{
    if test { a } else { b }
}

// Whether the command whose numbers have these digits is legal. Digits are in the order of their values, and so numbers are compared by their digits. No
// branch tells one kind from another, which a chip could not foretell.
// (The kind by its digits, since the definition `Tells` speaks of those and no number is made of them.)
fn is_legal(motor: u32, kind: u32, duration: u64, a: u64, b: u64) -> bool
    ensures { Tells motor kind duration a b result }
{
    let stop = kind == STOP;
    let least = pick(stop, NONE, DURATION_LEAST);
    let most = pick(stop, NONE, DURATION_MOST);
    let a_most = pick(stop, NONE, GAIN_MOST);
    let b_most = pick(kind == RAMP, GAIN_MOST, NONE);
    let what = (kind <= RAMP) & (MOTOR_LEAST <= motor) & (motor <= MOTOR_MOST);
    what & (least <= duration) & (duration <= most) & (a <= a_most) & (b <= b_most)
}

// Whether the digits of a legal command stand from a place on.
pub fn are_legal(s: &[u8], at: usize) -> bool
    requires { at + digits_size ≤ length s.now }
    ensures { result ≡ legal_digits (drop at s.now) }
{
    let motor = words::get32(s, at);
    let kind = words::get32(s, at + 4);
    let duration = words::get64(s, at + 8);
    let a = words::get64(s, at + 16);
    let b = words::get64(s, at + 24);
    let what = words::get64(s, at);
    let digits = are_digits(what) & are_digits(duration) & are_digits(a) & are_digits(b);
    digits & is_legal(motor, kind, duration, a, b)
}

// ---- digits made words

// The word of which these are the eight digits, all made values at once, and then joined in pairs, fours and eights.
fn word_of(x: u64) -> u32
    ensures { IsWordOf x result }
{
    // A letter has bit 6, and is 9 more than its low bits say.
    let v = (x & 0x0f0f_0f0f_0f0f_0f0f) + 9 * ((x & 0x4040_4040_4040_4040) / 64);
    let p = (v + v / 16) & 0x00ff_00ff_00ff_00ff;
    let q = (p + p / 256) & 0x0000_ffff_0000_ffff;
    ((q + q / 65_536) % 0x1_0000_0000) as u32
}

// The words of a command whose digits stand from a place on.
pub fn words_of(s: &[u8], at: usize) -> Words
    requires { (at + digits_size ≤ length s.now) × (hex_bytes command_size (drop at s.now) ≡ lost → ⊥) }
    ensures { FoundWords s.now at result }
{
    Words {
        what: word_of(words::get64(s, at)),
        duration: word_of(words::get64(s, at + 8)),
        a: word_of(words::get64(s, at + 16)),
        b: word_of(words::get64(s, at + 24)),
    }
}
