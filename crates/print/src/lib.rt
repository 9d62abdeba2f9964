// Bytes and decimal numbers as rule R27 has them, written into a lent slice. Each writer answers the place past what it wrote. `output` keeps that place.
#![tactic(auto)]

ghost use Rattle.std.specs.Prelude.{◌≡◌, ◌+◌, ◌≤◌, length};
ghost use Rattle.text.specs.Decimal.{decimal};
ghost use Rattle.text.specs.Wrote.{Wrote};

// Writes bytes from `at` on. Answers the place past them, as each writer does.
pub fn put(out: &mut [u8], at: usize, bytes: &[u8]) -> usize
    requires { at + length bytes.now ≤ length out.old }
    ensures { Wrote out.old at bytes.now result out.new }
{
    for (i, b) in bytes.iter().enumerate() {
        // (`copy_from_slice` calls `memmove`, and the archive calls nothing but `memset`.)
        out[at + i] = *b;
    }
    at + bytes.len()
}

// How many digits x has.
fn width(x: u32) -> usize
    ensures { result ≡ length (decimal x) }
{
    x.max(1).ilog10() as usize + 1
}

// Writes a number, from its last digit to its first.
// (No `Display`: Rattle ensures what is printed only where it goes to a `String`, and there is no heap.)
pub fn write_number(out: &mut [u8], at: usize, x: u32) -> usize
    requires { at + length (decimal x) ≤ length out.old }
    ensures { Wrote out.old at (decimal x) result out.new }
{
    // Most numbers of a message have one digit, and nothing is counted or divided for them.
    if x < 10 {
        out[at] = text::ZERO + x as u8;
        return at + 1;
    }
    let end = at + width(x);
    let mut left = x;
    for i in (at..end).rev() {
        out[i] = text::ZERO + (left % 10) as u8;
        left /= 10;
    }
    end
}
