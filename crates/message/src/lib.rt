// Messages between hubs, as rules R27 to R31 have them: what they say, how they are written, and which are legal. No code of its own: the
// types that reading and writing share stand here.
#![tactic(auto)]

use kinds::{Hub, Place, Term};

// What a message of each type says beside its term, from and to, but for its entries: of those, how many follow.
#[derive(Clone, Copy)]
pub enum Body {
    VoteRequest {
        last: Place,
        ballot: Term,
    },
    VoteYes {
        last: Place,
        ballot: Term,
        count: u32,
    },
    VoteNo,
    Append {
        prev: Place,
        prevterm: Term,
        chosen: Place,
        count: u32,
    },
    AppendYes {
        end: Place,
    },
    AppendNo {
        length: Place,
    },
}

// A message but for its entries.
#[derive(Clone, Copy)]
pub struct Fields {
    pub term: Term,
    pub from: Hub,
    pub to: Hub,
    pub body: Body,
}
