// The place of the first wrong byte of a line `type` that is none (rule R46). The reader of lines calls this, once that line is refused.
#![tactic(auto)]

ghost use Rattle.std.specs.Prelude.{◌≡◌, ◌+◌, ◌≤◌, max, length, drop, map};
ghost use Rattle.std.specs.List.{fold};
ghost use Rattle.text.specs.Reader.{lost};
ghost use Rattle.message.specs.Text.{type_among, types};
ghost use Rattle.message.specs.Opening.{type_line};
ghost use Rattle.begins.specs.Types.{seek_types, seek_type};
ghost use Rattle.seek.specs.Spotted.{Ends, same_bytes};

// The place where what stands at `at` stops being this name: past the name, or at its first wrong byte.
#[tactic(auto, using(crate::proofs::NameLaws::name_stops))]
fn stop_of(s: &[u8], at: usize, name: &[u8]) -> usize
    requires { at ≤ length s.now }
    ensures { result ≡ at + same_bytes name.now (drop at s.now) }
{
    seek::literal_place(s, at, name)
}

// The last place where what stands at `at` stops being one of these names.
fn last_stop(s: &[u8], at: usize, names: &[&[u8]]) -> usize
    requires { at ≤ length s.now }
    ensures { result ≡ fold max at (map (λ name. at + same_bytes name.now (drop at s.now)) names.now) }
{
    names
        .iter()
        .map(|name| stop_of(s, at, name))
        .fold(at, usize::max)
}

// The first wrong byte where no type's name stands: the last of those of the six names.
// (The names of `lines` again, which stands on this crate.)
fn name_place(s: &[u8], at: usize) -> usize
    requires { (at ≤ length s.now) × (type_among types (drop at s.now) ≡ lost) }
    ensures { Ends s.now (seek_types types (drop at s.now)) result }
{
    last_stop(
        s,
        at,
        &[
            b"vote-request\n",
            b"vote-yes\n",
            b"vote-no\n",
            b"append\n",
            b"append-yes\n",
            b"append-no\n",
        ],
    )
}

// The first wrong byte of a line `type` that is none.
pub fn type_place(s: &[u8]) -> usize
    requires { type_line s.now ≡ lost }
    ensures { Ends s.now (seek_type s.now) result }
{
    match seek::literal_at(s, 0, b"type=") {
        Ok(next) => name_place(s, next),
        Err(wrong) => wrong.place,
    }
}
