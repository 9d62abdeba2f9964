// The level of a motion and the drive of a motor (rule R47), in floats: each operation stands as the definition has it, and is rounded once. `player` calls
// this with times that it has tested.
#![tactic(auto)]

ghost use Rattle.std.specs.Prelude.{◌≡◌, ◌-◌, ◌*◌, ◌^◌, ◌≤◌, ◌<◌, pos};
ghost use Rattle.command.specs.Command.{duration_most};
ghost use Rattle.play.specs.Play.{whole, IsNumber, between, held, level_of, drive_of, drive_at};
ghost use Rattle.drive.specs.Digits.{Moved};

use command::Case;
use play::Calibration;

// The leading one of a float's 24 binary digits.
const LEADING: u32 = 0x80_0000;
// How many zeros stand in front of 24 binary digits.
const BEFORE: u32 = 8;
// The exponent of a number without a zero in front of its 32 binary digits, less the one that the leading digit adds.
const EXPONENT: u32 = 157;

// A number's binary digits, moved up until there are 24 of them.
fn digits_of(n: u32, zeros: u32) -> u32
    requires { Moved n zeros }
    ensures { result ≡ n * 2 ^ (zeros - 8) }
{
    n << (zeros - BEFORE)
}

// A whole number as a float, worked out. A float keeps 24 binary digits, so the number's are moved up to as many; they are the float's bits, with the
// leading one added to the exponent. (The limit stands in three contracts: since `drive_at` takes its times as plain numbers, a type that carries it would be
// made and taken apart in this file alone.)
fn whole_of(n: u32) -> f32
    requires { n ≤ duration_most }
    ensures { (result ≡ whole (pos n)) × IsNumber result n }
{
    if n == 0 {
        return 0.0;
    }
    let zeros = n.leading_zeros();
    f32::from_bits((EXPONENT - zeros) * LEADING + digits_of(n, zeros))
}

// Not `clamp`, which leaves -0 as it is.
#[tactic(auto, unfolding(play::specs::Play::held))]
fn held_within(x: f32) -> f32
    ensures { result ≡ held x }
{
    if x <= 0.0 {
        0.0
    } else if x > 1.0 {
        1.0
    } else {
        x
    }
}

// From x toward y by a part of the way.
fn toward(x: f32, y: f32, part: f32) -> f32
    ensures { result ≡ held (between x y part) }
{
    held_within(x + (y - x) * part)
}

#[tactic(auto, unfolding(play::specs::Play::level_of))]
fn level_of(case: Case, duration: u32, elapsed: u32) -> f32
    requires { (duration ≤ duration_most) × (elapsed < duration) }
    ensures { result ≡ level_of case (pos duration) (pos elapsed) }
{
    match case {
        Case::Stop => 0.0,
        Case::Buzz(gain) => gain,
        Case::Ramp(from, to) => toward(from, to, whole_of(elapsed) / whole_of(duration)),
    }
}

#[tactic(auto, unfolding(play::specs::Play::drive_of))]
fn drive_of(cal: Calibration, level: f32) -> f32
    ensures { result ≡ drive_of cal level }
{
    if level > 0.0 {
        toward(cal.floor, cal.ceiling, level)
    } else {
        0.0
    }
}

// The drive of a motor that has played a case for so long.
#[tactic(auto, unfolding(play::specs::Play::drive_at))]
pub fn drive_at(cal: Calibration, case: Case, duration: u32, elapsed: u32) -> f32
    requires { duration ≤ duration_most }
    ensures { result ≡ drive_at cal case (pos duration) (pos elapsed) }
{
    if duration <= elapsed {
        0.0
    } else {
        drive_of(cal, level_of(case, duration, elapsed))
    }
}
