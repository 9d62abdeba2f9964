// What the hub firmware calls, with numbers and byte slices only. Each function here is one of the crates below under its name for C; that it has numbers
// for its outcomes is the C interface. The crate `kritnamon_c` exports them.
#![tactic(auto)]

ghost use Rattle.std.specs.Prelude.{◌≡◌};
ghost use Rattle.command.specs.Answers.{IsResult, command_written, numbers_read, command_with};
ghost use Rattle.kinds.specs.Sizes.{limit, text_room};
ghost use Rattle.state.specs.Image.{state_size};
ghost use Rattle.rules.specs.Step.{step_of};
ghost use Rattle.promise.specs.Promise.{Answers, call};
ghost use Rattle.rules.specs.Report.{IsReport, report_of, chosen_of};
ghost use Rattle.alone.specs.Told.{Tells, numbers_told};
ghost use Rattle.alone.specs.Left.{IsLeft, writes};
ghost use Rattle.play.specs.Answer.{played, result_of, calibration_of, IsPlayed};
ghost use Rattle.kritnamon.specs.Version.{version};

use command::Numbers;
use kinds::Caller;

// The version: 3.1.0.
const VERSION: u32 = 30100;

// Reads a command's 16 bytes into the first five lent numbers: motor, kind, duration, a and b. A refusal (3: fewer than five numbers
// lent; 10: not a legal command) leaves them all.
pub fn kritnamon_read_command(bytes: &[u8], numbers: &mut [u32]) -> u32
    ensures { IsResult (numbers_read bytes.now numbers.old) result numbers.new }
{
    kinds::outcome_of(commands::read_numbers(bytes, numbers))
}

// Writes a command's 16 bytes at the start of `out`. A refusal (3: too little room; 10: not legal) leaves every byte.
pub fn kritnamon_write_command(
    motor: u32,
    kind: u32,
    duration: i32,
    a: u32,
    b: u32,
    out: &mut [u8],
) -> u32
    ensures { IsResult (command_written (command_with motor kind duration a b) out.old) result out.new }
{
    let n = Numbers {
        motor,
        kind,
        duration: duration.cast_unsigned(),
        a,
        b,
    };
    kinds::outcome_of(commands::write_numbers(n, out))
}

// Plays a command's 16 bytes: its time left in ms, below zero where it is overdue, and its drive's bits go into the lent numbers. A refusal (14: not a legal
// command; 15: a gain that is none, or a floor above its ceiling; 16: an elapsed time out of range) puts 0 and +0 there.
pub fn kritnamon_play(
    bytes: &[u8],
    elapsed: i64,
    floor: u32,
    ceiling: u32,
    left: &mut i64,
    drive: &mut u32,
) -> u32
    ensures { IsPlayed (result_of (played bytes.now elapsed (calibration_of floor ceiling))) result left.new drive.new }
{
    player::play_numbers(bytes, elapsed, floor, ceiling, left, drive)
}

// Reads a message's text into the first eight lent numbers: type, term, from, to, up to three of the type's own, and the count of its
// entries. The upper half of what is returned is where the entry lines begin in the text; they go to its end. A refusal (3: fewer than
// eight numbers lent; 4: not a legal message) leaves all numbers, and its upper half is 0. Above the eight bits of outcome 4 stands the
// place of the first wrong byte.
pub fn kritnamon_read_message(text: &[u8], numbers: &mut [u32]) -> u64
    ensures { Tells (numbers_told text.now numbers.old) text.now result numbers.new }
{
    alone::read_numbers(text, numbers)
}

// Writes a message's text at the start of `out`: from its eight numbers (type, term, from, to, up to three of the type's own, 0 for what the
// type does not have, and the count of its entries) and from a row of 20 bytes for each entry, its term's 4 and its command's 16. The upper
// half of what is returned is how many bytes the text has. A refusal (3: too short an output; 4: not the numbers of a type, not a row for
// each entry, or not a legal message) leaves every byte, and its upper half is 0.
pub fn kritnamon_write_message(numbers: &[u32], rows: &[u8], out: &mut [u8]) -> u64
    ensures { IsLeft (writes numbers.now rows.now out.old) result out.new }
{
    alone::write_numbers(numbers, rows, out)
}

// The version of the library.
pub fn kritnamon_version() -> u32
    ensures { result ≡ version }
{
    VERSION
}

// How many bytes a state has.
pub fn kritnamon_state_size() -> usize
    ensures { result ≡ state_size }
{
    state::state_bytes()
}

// How many places a log has at most.
pub fn kritnamon_places() -> u32
    ensures { result ≡ limit }
{
    kinds::places()
}

// The least bytes of an output.
pub fn kritnamon_output_size() -> usize
    ensures { result ≡ text_room }
{
    kinds::text_room()
}

// How many commands a hub reports, in the upper half of what is returned; or outcome 2 in its lower half if the kept parts are not legal.
pub fn kritnamon_chosen(state: &[u8]) -> u64
    ensures { result ≡ chosen_of state.now }
{
    report::packed(report::chosen_places(state))
}

// The command that a hub reports at a place, into the first 16 bytes of `out`. A refusal (2: kept parts not legal; 3: too little room;
// 12: a place that is not in 1..chosen) leaves every byte.
pub fn kritnamon_reported(state: &[u8], place: u32, out: &mut [u8]) -> u32
    ensures { IsReport (report_of state.now place out.old) result out.new }
{
    kinds::outcome_of(report::reported_at(state, place, out))
}

// ---- the step

// One step of hub `own` of n. Events: 1 start; 2 propose the command in `input`; 3 send to peer a from prev b; 4 restart; 5 receive the text in `input`.
// The lowest eight bits of what is returned are the outcome, the upper half how many bytes of message stand at the start of `out`; between them stands, with
// outcome 4, the place of the text's first wrong byte. All but outcome 0 leave the state; output bytes past a message stay.
pub fn kritnamon_step(
    n: u32,
    own: u32,
    event: u32,
    a: u32,
    b: u32,
    state: &mut [u8],
    input: &[u8],
    out: &mut [u8],
) -> u64
    ensures { Answers (step_of (call n own event a b state.old input.now out.old)) input.now result state.new out.new }
{
    let g = Caller {
        size: n,
        own: own.into(),
    };
    step::take_step(g, event, a, b, state, input, out)
}
