// A message's eight numbers, as C has them: the number of its type, then the numbers of its fields, each in its slot. They are turned into fields
// and back by functions, since `From` can't stand here: both types are of other crates.
#![tactic(auto)]

ghost use Rattle.std.specs.Prelude.{◌≡◌, ◌≤◌, length};
ghost use Rattle.std.proofs.lemmas.List.Edits.{sets};
ghost use Rattle.kinds.specs.Same.{same};
ghost use Rattle.numbers.specs.Numbers.{message_numbers, numbers_in, kind_with, fields_with};

use fields::Kind;
use message::{Body, Fields};

// How many numbers a message has.
pub const MANY: usize = 8;

// ---- from fields to numbers

// The numbers of a message's fields.
fn numbers_of(f: Fields) -> [u32; MANY]
    ensures { result ≡ numbers_in f }
{
    let term = f.term.into();
    let from = f.from.into();
    let to = f.to.into();
    match f.body {
        Body::VoteRequest { last, ballot } => [1, term, from, to, last.into(), ballot.into(), 0, 0],
        Body::VoteYes {
            last,
            ballot,
            count,
        } => [2, term, from, to, last.into(), ballot.into(), 0, count],
        Body::VoteNo => [3, term, from, to, 0, 0, 0, 0],
        Body::Append {
            prev,
            prevterm,
            chosen,
            count,
        } => [
            4,
            term,
            from,
            to,
            prev.into(),
            prevterm.into(),
            chosen.into(),
            count,
        ],
        Body::AppendYes { end } => [5, term, from, to, end.into(), 0, 0, 0],
        Body::AppendNo { length } => [6, term, from, to, length.into(), 0, 0, 0],
    }
}

// Puts a message's numbers into the first eight lent ones.
pub fn put_numbers(f: Fields, numbers: &mut [u32])
    requires { message_numbers ≤ length numbers.old }
    ensures { numbers.new ≡ sets numbers.old 0 (numbers_in f) }
{
    numbers[..MANY].copy_from_slice(&numbers_of(f));
}

// Whether eight numbers are those of these fields.
#[tactic(auto, using(crate::proofs::NumbersLaws::same_equal))]
pub fn are_numbers(numbers: &[u32; MANY], f: Fields) -> bool
    ensures { result ≡ same (numbers_in f) numbers.now }
{
    numbers_of(f) == *numbers
}

// ---- from numbers to fields

// The type of a number. What is no type's number is taken for the last.
#[tactic(auto, unfolding(crate::specs::Numbers::kind_with))]
fn kind_with(number: u32) -> Kind
    ensures { result ≡ kind_with number }
{
    match number {
        1 => Kind::VoteRequest,
        2 => Kind::VoteYes,
        3 => Kind::VoteNo,
        4 => Kind::Append,
        5 => Kind::AppendYes,
        _ => Kind::AppendNo,
    }
}

// The fields of eight numbers.
#[tactic(auto, unfolding(crate::specs::Numbers::fields_with))]
pub fn fields_with(numbers: &[u32; MANY]) -> Fields
    ensures { result ≡ fields_with numbers.now }
{
    let [kind, term, from, to, first, second, third, count] = *numbers;
    let own = [term, from, to, first, second, third, count];
    fields::fields_of(kind_with(kind), &own)
}
