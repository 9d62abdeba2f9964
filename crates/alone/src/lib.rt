// Messages read and written alone, as rule R35 has it, from the code's own fields and from eight numbers. What is to be written is tested first.
#![tactic(auto)]

ghost use Rattle.alone.specs.Written.{written_by, WritesText};
ghost use Rattle.alone.specs.Told.{Tells, numbers_told};
ghost use Rattle.alone.specs.Left.{IsLeft, writes};

use kinds::Refusal;
use message::Fields;

// Writes a message's text at the start of `out`, its entries from the rows; answers how many bytes it has. A refusal (too short an output; not
// a row for each entry, or a message that is not legal) leaves every byte.
#[tactic(auto, using(writer::proofs::PartsLaws::span_count), unfolding(crate::specs::Written::written_by, crate::specs::Written::is_message))]
pub fn write_message(f: Fields, rows: &[u8], out: &mut [u8]) -> Result<usize, Refusal>
    ensures { WritesText (written_by f rows.now out.old) result out.new }
{
    if out.len() < kinds::text_room() {
        return Err(Refusal::ShortOutput);
    }
    let count = span::span_of(f).count;
    if rows.len() != count as usize * kinds::ROW {
        return Err(Refusal::BadMessage);
    }
    if !tested::is_legal(f, rows) {
        return Err(Refusal::BadMessage);
    }
    Ok(writer::put_message(out, f, rows))
}

// ---- by numbers

// Reads a message's text into the first eight lent numbers. The upper half of what is returned is where the entry lines begin in the text; they go
// to its end. A refusal (fewer than eight numbers lent; not a legal message, with the place of its first wrong byte) leaves all numbers, and its upper half is 0.
// (One number, since C calls this. Its refusals are packed in two ways, with a place and without, so a `Result` would be taken apart at once.)
pub fn read_numbers(text: &[u8], numbers: &mut [u32]) -> u64
    ensures { Tells (numbers_told text.now numbers.old) text.now result numbers.new }
{
    if numbers.len() < numbers::MANY {
        return u64::from(u32::from(Refusal::ShortOutput));
    }
    match reader::read_message(text) {
        Ok(read) => {
            numbers::put_numbers(read.fields, numbers);
            kinds::packed(kinds::DONE, read.entries)
        }
        Err(wrong) => kinds::placed(Refusal::BadMessage.into(), wrong.place),
    }
}

// Writes as `write_message` does, from a message's numbers: not the numbers of a type is no legal message too.
#[tactic(auto, using(crate::proofs::LeftLaws::by_numbers, numbers::proofs::NumbersLaws::other_count), unfolding(crate::specs::Left::writes))]
fn write_by_numbers(numbers: &[u32], rows: &[u8], out: &mut [u8]) -> Result<usize, Refusal>
    ensures { WritesText (writes numbers.now rows.now out.old) result out.new }
{
    if out.len() < kinds::text_room() {
        return Err(Refusal::ShortOutput);
    }
    let Some(numbers) = numbers.as_array() else {
        return Err(Refusal::BadMessage);
    };
    let f = numbers::fields_with(numbers);
    if !numbers::are_numbers(numbers, f) {
        return Err(Refusal::BadMessage);
    }
    write_message(f, rows, out)
}

// Writes a message's text at the start of `out`, from its eight numbers and from a row for each entry. The upper half of what is returned is how
// many bytes the text has. A refusal (too short an output; not the numbers of a type, not a row for each entry, or not a legal message) leaves
// every byte, and its upper half is 0.
// (One number for the answer, since C calls this (`kritnamon_write_message`).)
pub fn write_numbers(numbers: &[u32], rows: &[u8], out: &mut [u8]) -> u64
    ensures { IsLeft (writes numbers.now rows.now out.old) result out.new }
{
    match write_by_numbers(numbers, rows, out) {
        Ok(bytes) => kinds::packed(kinds::DONE, bytes),
        Err(refusal) => u64::from(u32::from(refusal)),
    }
}
