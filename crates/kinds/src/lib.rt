// Hub numbers, places and terms (a ballot is a term). Their numbers are private, so that another crate compares each with its own kind alone, and a place
// with a term not at all. And what all crates share: sizes, who is called, events, refusals and their numbers.
#![tactic(auto)]

ghost use Rattle.std.specs.Prelude.{◌≡◌, ◌<◌, leb, ltb, eqb};
ghost use Rattle.kinds.specs.Of.{hub, place, term};
ghost use Rattle.kinds.specs.Packed.{half, places_room, placed, packed};
ghost use Rattle.kinds.specs.Sizes.{limit, text_room};
ghost use Rattle.kinds.specs.Event.{event_with};
ghost use Rattle.kinds.specs.Refusal.{number_of, outcome_of};

// Three structs of one shape, and no generic one: document 01 asks for tuple structs with private fields (docs/FORMS.md), and Rust's traits of conversion
// take a type each.
#[derive(Clone, Copy, Debug, PartialEq, Eq)]
pub struct Hub(u32);

#[derive(Clone, Copy, Debug, PartialEq, Eq, PartialOrd, Ord)]
pub struct Place(u32);

#[derive(Clone, Copy, Debug, PartialEq, Eq, PartialOrd, Ord)]
pub struct Term(u32);

impl From<u32> for Hub {
    ghost from_gives = { λ n r. r ≡ hub n };

    fn from(n: u32) -> Hub {
        Hub(n)
    }
}

impl From<Hub> for u32 {
    ghost from_gives = { λ h n. n ≡ h.0 };

    fn from(hub: Hub) -> u32 {
        hub.0
    }
}

impl From<u32> for Place {
    ghost from_gives = { λ n r. r ≡ place n };

    fn from(n: u32) -> Place {
        Place(n)
    }
}

impl From<Place> for u32 {
    ghost from_gives = { λ p n. n ≡ p.0 };

    fn from(place: Place) -> u32 {
        place.0
    }
}

impl From<u32> for Term {
    ghost from_gives = { λ n r. r ≡ term n };

    fn from(n: u32) -> Term {
        Term(n)
    }
}

impl From<Term> for u32 {
    ghost from_gives = { λ t n. n ≡ t.0 };

    fn from(term: Term) -> u32 {
        term.0
    }
}

// Who is called: the size of its group, and its own number. They come with every call.
#[derive(Clone, Copy)]
pub struct Caller {
    pub size: u32,
    pub own: Hub,
}

// ---- sizes

// The most hubs of a group.
pub const HUBS: u32 = 7;

// The last term.
pub const TERM_MOST: u32 = 4_294_967_295;

// The bytes of an entry's row.
pub const ROW: usize = 20;

// The most places of a log.
#[tactic(auto, unfolding(crate::specs::Sizes::limit))]
pub fn places() -> u32
    ensures { result ≡ limit }
{
    1_024
}

// The most bytes of a message's text, and the least of an output.
#[tactic(auto, unfolding(crate::specs::Sizes::text_room))]
pub fn text_room() -> usize
    ensures { result ≡ text_room }
{
    65_536
}

// ---- roles

// Numbers, and no enum: a head says what any bytes hold (`head_in`), a byte that is no role's too, and `role_head` tests it.
pub const FOLLOWER: u8 = 0;

pub const CANDIDATE: u8 = 1;

pub const LEADER: u8 = 2;

// ---- refusals and events

// Why a call is refused (rule R32). Its number is its outcome.
#[derive(Clone, Copy, Debug, PartialEq, Eq)]
pub enum Refusal {
    NotKnown = 1,
    BadState = 2,
    ShortOutput = 3,
    BadMessage = 4,
    NotAddressed = 5,
    Stale = 6,
    Contradicting = 7,
    WrongRole = 8,
    NoTermLeft = 9,
    BadCommand = 10,
    LogFull = 11,
    OutOfRange = 12,
    NothingNew = 13,
    NotPlayable = 14,
    BadCalibration = 15,
    BadElapsed = 16,
}

impl From<Refusal> for u32 {
    ghost from_gives = { λ r n. n ≡ number_of r };

    fn from(r: Refusal) -> u32 {
        r as u32
    }
}

// The outcome of what is not refused.
// A number, since C is told it; the code's own answers say `Ok`.
pub const DONE: u32 = 0;

// The outcome of an answer: done, or its refusal's number.
// (No `From`: neither `Result` nor `u32` is this crate's own, so the impl can't stand here.)
pub fn outcome_of<T: Drop>(answer: Result<T, Refusal>) -> u32
    ensures { result ≡ outcome_of answer }
{
    match answer {
        Ok(_) => DONE,
        Err(r) => r.into(),
    }
}

// What happens at a hub (rules R17 to R21). C gives its number.
#[derive(Clone, Copy, Debug, PartialEq, Eq)]
pub enum Event {
    Start,
    Propose,
    Send,
    Restart,
    Receive,
}

impl TryFrom<u32> for Event {
    type Error = Refusal;

    ghost try_from_gives = { λ n r. r ≡ event_with n };

    #[tactic(auto, unfolding(crate::specs::Event::event_with))]
    fn try_from(n: u32) -> Result<Event, Refusal> {
        match n {
            1 => Ok(Event::Start),
            2 => Ok(Event::Propose),
            3 => Ok(Event::Send),
            4 => Ok(Event::Restart),
            5 => Ok(Event::Receive),
            _ => Err(Refusal::NotKnown),
        }
    }
}

// ---- an outcome and what goes with it, in one number

// The upper half of 64 bits is counted in these.
const HALF: u64 = 4_294_967_296;
// The place of a wrong byte is counted in these, in the lower half.
const EIGHT_BITS: u64 = 256;

// For C, which has numbers: an outcome, and in the upper half how many bytes or places go with it.
// (`placed` is like it but for the factor and the limit, and each has its own definition: a generic one would take both, and be no shorter.)
pub fn packed(outcome: u32, many: usize) -> u64
    requires { many < half }
    ensures { result ≡ packed outcome many }
{
    u64::from(outcome) + many as u64 * HALF
}

// For C: an outcome, and in the lower half above it the place of the first wrong byte.
pub fn placed(outcome: u32, place: usize) -> u64
    requires { place < places_room }
    ensures { result ≡ placed outcome place }
{
    u64::from(outcome) + place as u64 * EIGHT_BITS
}
