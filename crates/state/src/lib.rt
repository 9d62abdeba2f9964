// A hub's state in lent bytes: its size, its head as a struct by value, and where a hub stands in the head's lists. What reads and writes the head is
// the crate `head`, what tests bytes the crate `legal`.
// The layout is docs/LAYOUT.md's: a head of 56 bytes, then a row of 20 bytes for each place of the limit.
#![tactic(auto)]

ghost use Rattle.std.specs.Prelude.{◌≡◌, ◌-◌};
ghost use Rattle.kinds.specs.Hubs.{for_hub};
ghost use Rattle.state.specs.Image.{state_size};

use kinds::{Hub, Place, Term};

// The bytes of the head.
pub const HEAD: usize = 56;

// The head of a state. Log and gathered rows stay in the lent bytes. The role is a byte and no enum, since a head is what any bytes hold (`head_in`).
// (Two lists of seven: document 01 asks for the lengths as an array (docs/FORMS.md), and the voters stand in the bytes so too.)
#[derive(Clone, Copy)]
pub struct Head {
    pub term: Term,
    pub ballot: Term,
    pub chosen: Place,
    pub length: Place,
    pub gathered: Place,
    pub role: u8,
    pub voters: [bool; 7],
    pub confirmed: [Place; 7],
}

// Where a hub stands in the head's lists of seven.
pub fn index_of(hub: Hub) -> usize
    ensures { result ≡ hub.0 - 1 }
{
    u32::from(hub).saturating_sub(1) as usize
}

// What stands for a hub in a list of seven; none beyond it.
pub fn for_hub<T: Copy>(list: &[T; 7], hub: Hub, none: T) -> T
    ensures { result ≡ for_hub list.now hub.0 none }
{
    list.get(index_of(hub)).copied().unwrap_or(none)
}

// How many bytes a state has.
#[tactic(auto, unfolding(crate::specs::Image::state_size))]
pub fn state_bytes() -> usize
    ensures { result ≡ state_size }
{
    HEAD + (kinds::places() as usize) * kinds::ROW
}
