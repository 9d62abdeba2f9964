// A motor command as the firmware plays it: its motor, its duration in ms, and its case with the gains it carries; and the five numbers in
// its 16 bytes. Each is made of the other. The definitions and their laws stand beside; `lawful` tells whether one is legal, and `commands`
// reads and writes one.
#![tactic(auto)]

ghost use Rattle.std.specs.Prelude.{◌≡◌, ◌≤◌, true};
ghost use Rattle.command.specs.Command.{legal_command, gain_most};
ghost use Rattle.command.specs.Case.{command_is, case_of, motion_of};
ghost use Rattle.command.specs.Answers.{of_numbers, list_of};

use std::num::f32_to_bits_with_nan;

// How many bytes a command has.
pub const SIZE: usize = 16;

// The bits of gain 1.0, the greatest.
pub const GAIN_MOST: u32 = 0x3f80_0000;

// A command is a stop, a buzz that carries its gain, or a ramp that carries its two gains, from and to.
#[derive(Clone, Copy, Debug, PartialEq)]
pub enum Case {
    Stop,
    Buzz(f32),
    Ramp(f32, f32),
}

#[derive(Clone, Copy, Debug, PartialEq)]
pub struct Motion {
    pub motor: u16,
    pub duration: i32,
    pub case: Case,
}

// The five numbers in a command's bytes, as they stand there, legal or not: so the kind is a number too, as it is for C, and the duration is given by its
// 32 bits.
#[derive(Clone, Copy, Debug, PartialEq, Eq)]
pub struct Numbers {
    pub motor: u32,
    pub kind: u32,
    pub duration: u32,
    pub a: u32,
    pub b: u32,
}

// ---- a motion and its numbers

impl Numbers {
    // The motion of a legal command's numbers.
    pub fn motion(self) -> Motion
        requires { legal_command (of_numbers self) ≡ true }
        ensures { result ≡ motion_of (of_numbers self) }
    {
        Motion {
            motor: self.motor as u16,
            duration: self.duration as i32,
            case: self.case(),
        }
    }

    // The case of its kind and its two gains.
    fn case(self) -> Case
        requires { (self.a ≤ gain_most) × (self.b ≤ gain_most) }
        ensures { result ≡ case_of self.kind self.a self.b }
    {
        match self.kind {
            0 => Case::Stop,
            1 => Case::Buzz(f32::from_bits(self.a)),
            _ => Case::Ramp(f32::from_bits(self.a), f32::from_bits(self.b)),
        }
    }
}

impl From<Motion> for Numbers {
    ghost from_gives = { λ m n. of_numbers n ≡ command_is m };

    fn from(m: Motion) -> Numbers {
        let (kind, a, b) = match m.case {
            Case::Stop => (0, 0, 0),
            Case::Buzz(gain) => (1, f32_to_bits_with_nan(gain), 0),
            Case::Ramp(from, to) => (2, f32_to_bits_with_nan(from), f32_to_bits_with_nan(to)),
        };
        Numbers {
            motor: m.motor.into(),
            kind,
            duration: m.duration.cast_unsigned(),
            a,
            b,
        }
    }
}

// In order: motor, kind, duration, a and b.
impl From<Numbers> for [u32; 5] {
    ghost from_gives = { λ n ns. ns ≡ list_of n };

    fn from(n: Numbers) -> [u32; 5] {
        [n.motor, n.kind, n.duration, n.a, n.b]
    }
}
