// A command alone, read from its 16 bytes and written into them: as a motion, and as its five numbers.
#![tactic(auto)]

ghost use Rattle.std.specs.Prelude.{◌≡◌, true, ◌≤◌, length};
ghost use Rattle.std.proofs.lemmas.List.Edits.{sets};
ghost use Rattle.kinds.specs.Refusal.{outcome_of};
ghost use Rattle.command.specs.Command.{legal_command, command_size, command_bytes};
ghost use Rattle.command.specs.Case.{command_is};
ghost use Rattle.command.specs.Answers.{of_numbers, numbers_in, ReadsCommand, numbers_read, command_written, IsResult};

use command::{Motion, Numbers};
use kinds::Refusal;

// ---- reading

// The numbers of a legal command's 16 bytes. Inlined, since a call of it costs a reading two thirds more time.
// (`lawful::numbers_of` asks for the length too, but answers no refusal.)
#[inline(always)]
#[tactic(auto, using(command::proofs::AnswersLaws::numbers_in_size, command::proofs::AnswersLaws::numbers_in_illegal, command::proofs::AnswersLaws::numbers_in_legal))]
fn numbers_in(bytes: &[u8]) -> Result<Numbers, Refusal>
    ensures { result ≡ numbers_in bytes.now }
{
    if bytes.len() != command::SIZE {
        return Err(Refusal::BadCommand);
    }
    let n = lawful::numbers_at(bytes, 0);
    if !lawful::is_legal(n) {
        return Err(Refusal::BadCommand);
    }
    Ok(n)
}

// The motion of a legal command's 16 bytes.
#[tactic(auto, using(command::proofs::AnswersLaws::reads_illegal, command::proofs::AnswersLaws::numbers_in_are_legal, command::proofs::AnswersLaws::reads_legal))]
pub fn read_command(bytes: &[u8]) -> Result<Motion, Refusal>
    ensures { ReadsCommand bytes.now result }
{
    let n = numbers_in(bytes)?;
    Ok(n.motion())
}

// Reads a command's 16 bytes into the first five lent numbers: motor, kind, duration, a and b. A refusal leaves them all.
pub fn read_numbers(bytes: &[u8], numbers: &mut [u32]) -> Result<(), Refusal>
    ensures { IsResult (numbers_read bytes.now numbers.old) (outcome_of result) numbers.new }
{
    let Some(five) = numbers.first_chunk_mut::<5>() else {
        return Err(Refusal::ShortOutput);
    };
    *five = numbers_in(bytes)?.into();
    Ok(())
}

// ---- writing

// Writes the numbers of a legal command into the first 16 bytes.
// (Like `rows::put_words`, whose `Words` would be made for one call: motor and kind are joined either way.)
fn put_numbers(n: Numbers, out: &mut [u8])
    requires { (legal_command (of_numbers n) ≡ true) × (command_size ≤ length out.old) }
    ensures { out.new ≡ sets out.old 0 (command_bytes (of_numbers n)) }
{
    words::put32(out, 0, n.motor * 65536 + n.kind);
    words::put32(out, 4, n.duration);
    words::put32(out, 8, n.a);
    words::put32(out, 12, n.b);
}

// Writes the 16 bytes of the command of these numbers at the start of `out`. A refusal leaves every byte.
#[tactic(auto, using(command::proofs::AnswersLaws::command_written_short, command::proofs::AnswersLaws::command_written_illegal, command::proofs::AnswersLaws::command_written_done))]
pub fn write_numbers(n: Numbers, out: &mut [u8]) -> Result<(), Refusal>
    ensures { IsResult (command_written (of_numbers n) out.old) (outcome_of result) out.new }
{
    if out.len() < command::SIZE {
        return Err(Refusal::ShortOutput);
    }
    if !lawful::is_legal(n) {
        return Err(Refusal::BadCommand);
    }
    put_numbers(n, out);
    Ok(())
}

// Writes a motion's 16 bytes at the start of `out`. A refusal leaves every byte.
pub fn write_command(m: Motion, out: &mut [u8]) -> Result<(), Refusal>
    ensures { IsResult (command_written (command_is m) out.old) (outcome_of result) out.new }
{
    write_numbers(m.into(), out)
}
