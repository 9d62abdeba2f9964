// Numbers as bytes, big-endian, in a lent slice: how commands, rows and states hold them.
#![tactic(auto)]

ghost use Rattle.std.specs.Prelude.{◌≡◌, ◌+◌, ◌≤◌, length};
ghost use Rattle.std.proofs.lemmas.List.Edits.{sets};
ghost use Rattle.command.specs.Words.{word, part, word_at};

// The N bytes from a place on.
fn bytes_at<const N: usize>(s: &[u8], at: usize) -> [u8; N]
    requires { at + N ≤ length s.now }
    ensures { result ≡ part at N s.now }
{
    s[at..at + N].try_into().unwrap()
}

// The number in the two bytes from a place on.
// (Three of one line each, since `from_be_bytes` is each type's own: a trait over it would be longer than they are.)
#[tactic(auto, using(crate::proofs::BytesLaws::word_2))]
pub fn get16(s: &[u8], at: usize) -> u32
    requires { at + 2 ≤ length s.now }
    ensures { result ≡ word_at at 2 s.now }
{
    u16::from_be_bytes(bytes_at(s, at)).into()
}

// The number in the four bytes from a place on.
#[tactic(auto, using(crate::proofs::BytesLaws::word_4))]
pub fn get32(s: &[u8], at: usize) -> u32
    requires { at + 4 ≤ length s.now }
    ensures { result ≡ word_at at 4 s.now }
{
    u32::from_be_bytes(bytes_at(s, at))
}

// The number in the eight bytes from a place on.
#[tactic(auto, using(crate::proofs::BytesLaws::word_8))]
pub fn get64(s: &[u8], at: usize) -> u64
    requires { at + 8 ≤ length s.now }
    ensures { result ≡ word_at at 8 s.now }
{
    u64::from_be_bytes(bytes_at(s, at))
}

// Writes a number into the four bytes from a place on.
#[tactic(auto, using(crate::proofs::BytesLaws::word_put))]
pub fn put32(s: &mut [u8], at: usize, x: u32)
    requires { at + 4 ≤ length s.old }
    ensures { s.new ≡ sets s.old at (word 4 x) }
{
    s[at..at + 4].copy_from_slice(&x.to_be_bytes());
}
