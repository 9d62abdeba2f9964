// Text as rule R27 has it: decimal numbers, lower-case hex digits and `key=` lines. What a reader answers, and the bytes that readers and
// writers share. The definitions and their laws stand beside; who reads is in `scan` and `digits`, who writes in `print` and `in_hex`.
// A reader is told a text and the place to read at side by side, as `requires { at ≤ length s.now }`. In one struct with that in a ghost field they read no
// plainer: each clause would name `here.entry.text.now`, and each answer need one more, that its place is in the text that was asked.
#![tactic(auto)]

ghost use Rattle.std.specs.Prelude.{◌≡◌};
ghost use Rattle.kinds.specs.Sizes.{between};

// The byte of the digit 0. The other digits follow it.
pub const ZERO: u8 = b'0';
// The end of a line.
pub const LF: u8 = b'\n';

// A number, and the place past its text.
#[derive(Clone, Copy, Debug, PartialEq, Eq)]
pub struct Number {
    pub value: u32,
    pub next: usize,
}

// The numbers lo..hi, both ends included.
#[derive(Clone, Copy, Debug, PartialEq, Eq)]
pub struct Bounds {
    pub lo: u32,
    pub hi: u32,
}

impl Bounds {
    #[tactic(auto, unfolding(kinds::specs::Sizes::between))]
    pub fn contains(self, x: u32) -> bool
        ensures { result ≡ between self.lo self.hi x }
    {
        (self.lo..=self.hi).contains(&x)
    }
}
