// The range of each field of a message, given the numbers before it (rule R30).
#![tactic(auto)]

ghost use Rattle.std.specs.Prelude.{◌≡◌};
ghost use Rattle.message.specs.Range.{range};
ghost use Rattle.fields.specs.Table.{type_is, field_is};
ghost use Rattle.ranges.specs.Bounds.{range_is};

use fields::{Field, Kind};
use text::Bounds;

// The range of a field's number, given the numbers before it.
#[tactic(auto, unfolding(message::specs::Range::range))]
pub fn range_of(kind: Kind, field: Field, ns: &[u32; 7]) -> Bounds
    ensures { range_is result ≡ range (type_is kind) (field_is field) ns.now }
{
    let most = kinds::places();
    let (lo, hi) = match field {
        Field::Term => (1, kinds::TERM_MOST),
        Field::From => (1, kinds::HUBS),
        // A vote-request goes to all.
        Field::To if kind == Kind::VoteRequest => (0, 0),
        Field::To => (1, kinds::HUBS),
        // A vote-request of term 1 has ballot 0, and so last 0.
        Field::Last if kind == Kind::VoteRequest && ns[fields::TERM] == 1 => (0, 0),
        // A vote-request's ballot is 0 only with last 0.
        Field::Ballot if kind == Kind::VoteRequest && ns[fields::LAST] != 0 => (
            1,
            ns[fields::TERM].saturating_sub(1),
        ),
        Field::Ballot => (0, ns[fields::TERM].saturating_sub(1)),
        // An append has as many entries as chosen asks for; a vote-yes of ballot 0 has none.
        Field::Count if kind == Kind::Append => (
            ns[fields::CHOSEN].saturating_sub(ns[fields::PREV]),
            most.saturating_sub(ns[fields::PREV]),
        ),
        Field::Count if ns[fields::BALLOT] == 0 => (0, 0),
        Field::Count => (0, most.saturating_sub(ns[fields::LAST])),
        // 0 exactly with prev 0.
        Field::Prevterm if ns[fields::PREV] == 0 => (0, 0),
        Field::Prevterm => (1, ns[fields::TERM]),
        Field::Last | Field::Prev | Field::Chosen | Field::End | Field::Length => (0, most),
    };
    Bounds { lo, hi }
}
