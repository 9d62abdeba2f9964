// The largest place that a majority of the hubs has confirmed: what a leader may call chosen.
#![tactic(auto)]

ghost use Rattle.std.specs.Prelude.{◌≡◌, ◌≤◌};
ghost use Rattle.kinds.specs.Of.{place};
ghost use Rattle.kinds.specs.Sizes.{hubs_most};
ghost use Rattle.rules.specs.Majority.{confirmed_by, majority_place};
ghost use Rattle.majority.specs.Numbers.{place_numbers};

use kinds::Place;

// A majority of the hubs 1..n has confirmed a length of p or more.
// (n is a group's size, which `gate` has tested: three contracts ask it, and `Ready` tells it to the only caller above.)
fn is_confirmed(n: u32, confirmed: [Place; 7], p: Place) -> bool
    requires { n ≤ hubs_most }
    ensures { result ≡ confirmed_by n (place_numbers confirmed) p.0 }
{
    let hubs = n as usize;
    hubs / 2 + 1 <= confirmed[..hubs].iter().filter(|l| p <= **l).count()
}

// The largest place confirmed by a majority; 0 if there is none. It is the largest of the hubs' lengths that a majority has confirmed, so no
// other place is tried. No length is bound to be a place: one beyond the last is cut to it.
pub fn majority_place(n: u32, confirmed: [Place; 7]) -> Place
    requires { n ≤ hubs_most }
    ensures { result ≡ place (majority_place n (place_numbers confirmed)) }
{
    let known = &confirmed[..n as usize];
    let best = known
        .iter()
        .copied()
        .filter(|p| is_confirmed(n, confirmed, *p))
        .max();
    best.unwrap_or(Place::from(0))
        .min(Place::from(kinds::places()))
}
