// Whether a command is legal (rules R7 to R9): by its five numbers, at a place of a lent slice, and as a slice of its own; and whether it may be
// proposed (rule R43). Who reads rows or a proposal asks here; the digits of an entry line are tested by `digits`.
#![tactic(auto)]

ghost use Rattle.std.specs.Prelude.{◌≡◌, ◌+◌, ◌≤◌, length};
ghost use Rattle.command.specs.Words.{part};
ghost use Rattle.command.specs.Command.{legal_command, command_size, command_of};
ghost use Rattle.command.specs.Answers.{of_numbers, numbers_at, is_command};
ghost use Rattle.command.specs.Proposal.{proposable, is_proposal};
ghost use Rattle.lawful.specs.Limits.{limits_of, numbers_of};

use command::{GAIN_MOST, Numbers};

// The last motor.
const MOTOR_MOST: u32 = 64;
// The shortest duration of a buzz or ramp, in ms.
const DURATION_LEAST: u32 = 1;
// The longest duration, in ms.
const DURATION_MOST: u32 = 600_000;
// The shortest buzz or ramp that can be felt, in ms.
const FELT_LEAST: u32 = 20;

// The kinds of a command.
// (Numbers, and no enum: a command's bytes may have any number there (`Numbers`), and `limits_of` speaks of all of them.)
const STOP: u32 = 0;

const BUZZ: u32 = 1;

const RAMP: u32 = 2;

// What a kind allows: durations from the least to the most, and a and b up to the most.
#[derive(Clone, Copy)]
struct Limits {
    least: u32,
    most: u32,
    a_most: u32,
    b_most: u32,
}

// The limits of a kind, if the number is one's.
// (By the number: the definition `limits_of` has a number that is no kind's too.)
#[tactic(auto, unfolding(crate::specs::Limits::limits_of))]
fn limits_of(kind: u32) -> Option<Limits>
    ensures { result ≡ limits_of kind }
{
    match kind {
        STOP => Some(Limits {
            least: 0,
            most: 0,
            a_most: 0,
            b_most: 0,
        }),
        BUZZ => Some(Limits {
            least: DURATION_LEAST,
            most: DURATION_MOST,
            a_most: GAIN_MOST,
            b_most: 0,
        }),
        RAMP => Some(Limits {
            least: DURATION_LEAST,
            most: DURATION_MOST,
            a_most: GAIN_MOST,
            b_most: GAIN_MOST,
        }),
        _ => None,
    }
}

// Whether the command of these numbers is legal.
#[tactic(auto, using(crate::proofs::LimitLaws::legal_kindless, crate::proofs::LimitLaws::legal_within))]
pub fn is_legal(n: Numbers) -> bool
    ensures { result ≡ legal_command (of_numbers n) }
{
    let Some(limits) = limits_of(n.kind) else {
        return false;
    };
    let motor = (1 <= n.motor) & (n.motor <= MOTOR_MOST);
    let duration = (limits.least <= n.duration) & (n.duration <= limits.most);
    let gains = (n.a <= limits.a_most) & (n.b <= limits.b_most);
    // The limits are a table to the compiler: no branch tells one kind from another, which a chip could not foretell.
    motor & duration & gains
}

// Whether the command of these numbers may be proposed (rule R43): it is legal, and a stop or long enough to feel.
fn may_propose(n: Numbers) -> bool
    ensures { result ≡ proposable (of_numbers n) }
{
    is_legal(n) & ((n.kind == STOP) | (FELT_LEAST <= n.duration))
}

// The numbers of the 16 bytes from a place on.
// (A place and its room, not an array of 16: the definition `numbers_at` speaks of a place in a list.)
pub fn numbers_at(s: &[u8], at: usize) -> Numbers
    requires { at + command_size ≤ length s.now }
    ensures { result ≡ numbers_at at s.now }
{
    Numbers {
        motor: words::get16(s, at),
        kind: words::get16(s, at + 2),
        duration: words::get32(s, at + 4),
        a: words::get32(s, at + 8),
        b: words::get32(s, at + 12),
    }
}

// Whether the 16 bytes from a place on are a legal command.
#[tactic(auto, using(crate::proofs::LimitLaws::legal_there))]
pub fn is_legal_at(s: &[u8], at: usize) -> bool
    requires { at + command_size ≤ length s.now }
    ensures { result ≡ legal_command (command_of (part at command_size s.now)) }
{
    is_legal(numbers_at(s, at))
}

// The numbers of a command's bytes, if they are as many as it has.
#[tactic(auto, unfolding(crate::specs::Limits::numbers_of))]
fn numbers_of(bytes: &[u8]) -> Option<Numbers>
    ensures { result ≡ numbers_of bytes.now }
{
    if bytes.len() == command::SIZE {
        Some(numbers_at(bytes, 0))
    } else {
        None
    }
}

// Whether these bytes are a legal command: 16 of them, and legal.
pub fn is_command(bytes: &[u8]) -> bool
    ensures { result ≡ is_command bytes.now }
{
    numbers_of(bytes).is_some_and(is_legal)
}

// Whether these bytes may be proposed: 16 of them, and such a command's.
// (Like `is_command` but for the test: a generic one would take that as a closure, and be no shorter.)
pub fn is_proposal(bytes: &[u8]) -> bool
    ensures { result ≡ is_proposal bytes.now }
{
    numbers_of(bytes).is_some_and(may_propose)
}
