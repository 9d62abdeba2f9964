// A command played: a motor's calibration, and what playing gives. No code of its own: what the time left and the drive are stands in the
// definitions beside, with their laws; `drive` works the drive out, and `player` plays.
#![tactic(auto)]

// A motor's calibration: its two gains.
#[derive(Clone, Copy, Debug, PartialEq)]
pub struct Calibration {
    pub floor: f32,
    pub ceiling: f32,
}

// What playing gives: the time left in ms, below zero where the command is overdue, and the drive.
#[derive(Clone, Copy, Debug, PartialEq)]
pub struct Drives {
    pub left: i64,
    pub drive: f32,
}
