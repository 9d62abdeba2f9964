// Bytes as lower-case hex digits, written into a lent slice. `output` calls this; who reads digits is in `digits`.
#![tactic(auto)]

ghost use Rattle.std.specs.Prelude.{◌≡◌, ◌+◌, ◌<◌, ◌≤◌, length};
ghost use Rattle.text.specs.Hex.{hex_digit, hex};
ghost use Rattle.text.specs.Wrote.{Wrote};

// The hex digit of a value.
// (Not `char::from_digit`: it answers an `Option` of a `char`, which would be made a byte again.)
fn hex_digit(v: u8) -> u8
    requires { v < 16 }
    ensures { result ≡ hex_digit v }
{
    if v < 10 {
        text::ZERO + v
    } else {
        b'a' + (v - 10)
    }
}

// Writes bytes as hex digits.
// (No `{:x}`: Rattle ensures what is printed only where it goes to a `String`, and there is no heap.)
// (`out` and `at` are the two fields of `Output`, which alone calls this.)
pub fn write_hex(out: &mut [u8], at: usize, bytes: &[u8]) -> usize
    requires { at + length (hex bytes.now) ≤ length out.old }
    ensures { Wrote out.old at (hex bytes.now) result out.new }
{
    for (i, b) in bytes.iter().enumerate() {
        // (A proof knows nothing of what `chunks_exact_mut` leaves in the slice.)
        out[at + 2 * i] = hex_digit(b / 16);
        out[at + 2 * i + 1] = hex_digit(b % 16);
    }
    at + 2 * bytes.len()
}
