// A command played (rule R47): what is refused, and for all else the time left and the drive; and the same by the numbers that C gives and is given.
#![tactic(auto)]

ghost use Rattle.std.specs.Prelude.{◌≡◌, pos};
ghost use Rattle.std.specs.Float.{binary32};
ghost use Rattle.std.specs.Float.Ieee.{to_bits};
ghost use Rattle.command.specs.Command.{is_gain};
ghost use Rattle.play.specs.Play.{Timed, is_calibration, is_elapsed};
ghost use Rattle.play.specs.Answer.{drives, played, result_of, calibration_of, IsPlayed};

use command::Motion;
use kinds::Refusal;
use play::{Calibration, Drives};
use std::num::{f32_from_bits_with_nan, f32_to_bits_with_nan};

// The greatest elapsed time, in ms.
const ELAPSED_MOST: i64 = 2_147_483_647;

// What a refusal gives.
const NOTHING: Drives = Drives {
    left: 0,
    drive: 0.0,
};

// ---- what is refused

#[tactic(auto, unfolding(command::specs::Command::is_gain))]
fn is_gain(x: f32) -> bool
    ensures { result ≡ is_gain (to_bits binary32 x) }
{
    f32_to_bits_with_nan(x) <= command::GAIN_MOST
}

// Whether these are two gains, the floor not above the ceiling.
#[tactic(auto, unfolding(play::specs::Play::is_calibration))]
fn is_calibration(cal: Calibration) -> bool
    ensures { result ≡ is_calibration cal }
{
    is_gain(cal.floor) && is_gain(cal.ceiling) && !(cal.ceiling < cal.floor)
}

// Whether an elapsed time is in range.
#[tactic(auto, unfolding(play::specs::Play::is_elapsed))]
fn is_elapsed(n: i64) -> bool
    ensures { result ≡ is_elapsed n }
{
    (0..=ELAPSED_MOST).contains(&n)
}

// ---- what is played

// The time left, below zero where the command is overdue, and the drive.
#[tactic(auto, unfolding(play::specs::Answer::drives))]
fn drives(m: Motion, elapsed: u32, cal: Calibration) -> Drives
    requires { Timed m.duration }
    ensures { result ≡ drives m (pos elapsed) cal }
{
    Drives {
        left: i64::from(m.duration) - i64::from(elapsed),
        drive: drive::drive_at(cal, m.case, m.duration as u32, elapsed),
    }
}

// Plays a command's 16 bytes.
#[tactic(auto, using(play::proofs::AnswerLaws::played_illegal, play::proofs::AnswerLaws::read_timed))]
pub fn play(bytes: &[u8], elapsed: i64, cal: Calibration) -> Result<Drives, Refusal>
    ensures { result ≡ played bytes.now elapsed cal }
{
    let Ok(m) = commands::read_command(bytes) else {
        return Err(Refusal::NotPlayable);
    };
    if !is_calibration(cal) {
        return Err(Refusal::BadCalibration);
    }
    if !is_elapsed(elapsed) {
        return Err(Refusal::BadElapsed);
    }
    Ok(drives(m, elapsed as u32, cal))
}

// ---- by C's numbers

// The calibration of two gains' bits, whatever bits they are.
// (No `From`: `Calibration` is another crate's, and a pair of numbers is nobody's.)
fn calibration_of(floor: u32, ceiling: u32) -> Calibration
    ensures { result ≡ calibration_of floor ceiling }
{
    Calibration {
        floor: f32_from_bits_with_nan(floor),
        ceiling: f32_from_bits_with_nan(ceiling),
    }
}

// An answer's time left and drive into the lent numbers, and its outcome.
// (The outcome is a number, since C is told it.)
fn tell(answer: Result<Drives, Refusal>, left: &mut i64, drive: &mut u32) -> u32
    ensures { IsPlayed (result_of answer) result left.new drive.new }
{
    let given = answer.unwrap_or(NOTHING);
    *left = given.left;
    *drive = f32_to_bits_with_nan(given.drive);
    kinds::outcome_of(answer)
}

// Plays a command's 16 bytes with a calibration given by its gains' bits: the time left and the drive's bits go into the lent numbers, 0 and +0 with a refusal.
// So many numbers, and a number for the outcome, since C calls this (`kritnamon_play`).
pub fn play_numbers(
    bytes: &[u8],
    elapsed: i64,
    floor: u32,
    ceiling: u32,
    left: &mut i64,
    drive: &mut u32,
) -> u32
    ensures { IsPlayed (result_of (played bytes.now elapsed (calibration_of floor ceiling))) result left.new drive.new }
{
    tell(
        play(bytes, elapsed, calibration_of(floor, ceiling)),
        left,
        drive,
    )
}
