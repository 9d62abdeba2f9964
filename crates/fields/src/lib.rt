// The table of a message's fields: those of each type in their order, the slot of each one's number, and what all numbers say. The range of each number is
// the matter of `ranges`, and reading by both that of `lines`.
#![tactic(auto)]

ghost use Rattle.std.specs.Prelude.{◌≡◌, ◌<◌, map};
ghost use Rattle.message.specs.Fields.{fields, slot};
ghost use Rattle.fields.specs.Table.{type_is, field_is, body_by, fields_by};

use message::{Body, Fields};

// The slots of the fields' numbers. Fields that no type has together share one.
// (Numbers in slots, and no struct: one loop reads the fields of every type (`lines`), and the definition `slot` says where each stands.)
pub const TERM: usize = 0;

const FROM: usize = 1;

const TO: usize = 2;

pub const LAST: usize = 3;

pub const PREV: usize = 3;

const END: usize = 3;

const LENGTH: usize = 3;

pub const BALLOT: usize = 4;

const PREVTERM: usize = 4;

pub const CHOSEN: usize = 5;

const COUNT: usize = 6;

// The six types of message.
#[derive(Clone, Copy, Debug, PartialEq, Eq)]
pub enum Kind {
    VoteRequest,
    VoteYes,
    VoteNo,
    Append,
    AppendYes,
    AppendNo,
}

// The fields of all types.
#[derive(Clone, Copy, Debug, PartialEq, Eq)]
pub enum Field {
    Term,
    From,
    To,
    Last,
    Ballot,
    Count,
    Prev,
    Prevterm,
    Chosen,
    End,
    Length,
}

impl Kind {
    // The fields of a type, in the order of their lines between the line `type` and the entries.
    #[tactic(auto, unfolding(message::specs::Fields::fields, message::specs::Fields::own_fields))]
    pub fn fields(self) -> &'static [Field]
        ensures { map field_is result.now ≡ fields (type_is self) }
    {
        match self {
            Kind::VoteRequest => &[
                Field::Term,
                Field::From,
                Field::To,
                Field::Last,
                Field::Ballot,
            ],
            Kind::VoteYes => &[
                Field::Term,
                Field::From,
                Field::To,
                Field::Last,
                Field::Ballot,
                Field::Count,
            ],
            Kind::VoteNo => &[Field::Term, Field::From, Field::To],
            Kind::Append => &[
                Field::Term,
                Field::From,
                Field::To,
                Field::Prev,
                Field::Prevterm,
                Field::Chosen,
                Field::Count,
            ],
            Kind::AppendYes => &[Field::Term, Field::From, Field::To, Field::End],
            Kind::AppendNo => &[Field::Term, Field::From, Field::To, Field::Length],
        }
    }
}

impl Field {
    // The slot of a field's number.
    // (No cast of the enum: fields that no type has together share a slot, and an enum's numbers differ.)
    pub fn slot(self) -> usize
        ensures { (result ≡ slot (field_is self)) × (result < 7) }
    {
        match self {
            Field::Term => TERM,
            Field::From => FROM,
            Field::To => TO,
            Field::Last => LAST,
            Field::Ballot => BALLOT,
            Field::Count => COUNT,
            Field::Prev => PREV,
            Field::Prevterm => PREVTERM,
            Field::Chosen => CHOSEN,
            Field::End => END,
            Field::Length => LENGTH,
        }
    }
}

// ---- what numbers say

// What a message of this type says by the numbers of its own slots.
fn body_of(kind: Kind, ns: &[u32; 7]) -> Body
    ensures { result ≡ body_by kind ns.now }
{
    match kind {
        Kind::VoteRequest => Body::VoteRequest {
            last: ns[LAST].into(),
            ballot: ns[BALLOT].into(),
        },
        Kind::VoteYes => Body::VoteYes {
            last: ns[LAST].into(),
            ballot: ns[BALLOT].into(),
            count: ns[COUNT],
        },
        Kind::VoteNo => Body::VoteNo,
        Kind::Append => Body::Append {
            prev: ns[PREV].into(),
            prevterm: ns[PREVTERM].into(),
            chosen: ns[CHOSEN].into(),
            count: ns[COUNT],
        },
        Kind::AppendYes => Body::AppendYes {
            end: ns[END].into(),
        },
        Kind::AppendNo => Body::AppendNo {
            length: ns[LENGTH].into(),
        },
    }
}

// What a message of this type says by its numbers.
// (A type and its numbers are no struct: `ranges` is asked while the numbers are still being read.)
pub fn fields_of(kind: Kind, ns: &[u32; 7]) -> Fields
    ensures { result ≡ fields_by kind ns.now }
{
    Fields {
        term: ns[TERM].into(),
        from: ns[FROM].into(),
        to: ns[TO].into(),
        body: body_of(kind, ns),
    }
}
