// What C links: the functions of `kritnamon`, exported under their names. A crate is a library or a static library, so the C interface needs the pair: this is
// the static one.
#![tactic(auto)]

ghost use Rattle.std.specs.Prelude.{◌≡◌};
ghost use Rattle.command.specs.Answers.{IsResult, command_written, numbers_read, command_with};
ghost use Rattle.kinds.specs.Sizes.{limit, text_room};
ghost use Rattle.state.specs.Image.{state_size};
ghost use Rattle.rules.specs.Step.{step_of};
ghost use Rattle.promise.specs.Promise.{Answers, call};
ghost use Rattle.rules.specs.Report.{IsReport, report_of, chosen_of};
ghost use Rattle.alone.specs.Told.{Tells, numbers_told};
ghost use Rattle.alone.specs.Left.{IsLeft, writes};
ghost use Rattle.play.specs.Answer.{played, result_of, calibration_of, IsPlayed};
ghost use Rattle.kritnamon.specs.Version.{version};

#[unsafe(no_mangle)]
pub extern "C" fn kritnamon_read_command(bytes: &[u8], numbers: &mut [u32]) -> u32
    ensures { IsResult (numbers_read bytes.now numbers.old) result numbers.new }
{
    kritnamon::kritnamon_read_command(bytes, numbers)
}

#[unsafe(no_mangle)]
pub extern "C" fn kritnamon_write_command(
    motor: u32,
    kind: u32,
    duration: i32,
    a: u32,
    b: u32,
    out: &mut [u8],
) -> u32
    ensures { IsResult (command_written (command_with motor kind duration a b) out.old) result out.new }
{
    kritnamon::kritnamon_write_command(motor, kind, duration, a, b, out)
}

#[unsafe(no_mangle)]
pub extern "C" fn kritnamon_play(
    bytes: &[u8],
    elapsed: i64,
    floor: u32,
    ceiling: u32,
    left: &mut i64,
    drive: &mut u32,
) -> u32
    ensures { IsPlayed (result_of (played bytes.now elapsed (calibration_of floor ceiling))) result left.new drive.new }
{
    kritnamon::kritnamon_play(bytes, elapsed, floor, ceiling, left, drive)
}

#[unsafe(no_mangle)]
pub extern "C" fn kritnamon_read_message(text: &[u8], numbers: &mut [u32]) -> u64
    ensures { Tells (numbers_told text.now numbers.old) text.now result numbers.new }
{
    kritnamon::kritnamon_read_message(text, numbers)
}

#[unsafe(no_mangle)]
pub extern "C" fn kritnamon_write_message(numbers: &[u32], rows: &[u8], out: &mut [u8]) -> u64
    ensures { IsLeft (writes numbers.now rows.now out.old) result out.new }
{
    kritnamon::kritnamon_write_message(numbers, rows, out)
}

#[unsafe(no_mangle)]
pub extern "C" fn kritnamon_version() -> u32
    ensures { result ≡ version }
{
    kritnamon::kritnamon_version()
}

#[unsafe(no_mangle)]
pub extern "C" fn kritnamon_state_size() -> usize
    ensures { result ≡ state_size }
{
    kritnamon::kritnamon_state_size()
}

#[unsafe(no_mangle)]
pub extern "C" fn kritnamon_places() -> u32
    ensures { result ≡ limit }
{
    kritnamon::kritnamon_places()
}

#[unsafe(no_mangle)]
pub extern "C" fn kritnamon_output_size() -> usize
    ensures { result ≡ text_room }
{
    kritnamon::kritnamon_output_size()
}

#[unsafe(no_mangle)]
pub extern "C" fn kritnamon_chosen(state: &[u8]) -> u64
    ensures { result ≡ chosen_of state.now }
{
    kritnamon::kritnamon_chosen(state)
}

#[unsafe(no_mangle)]
pub extern "C" fn kritnamon_reported(state: &[u8], place: u32, out: &mut [u8]) -> u32
    ensures { IsReport (report_of state.now place out.old) result out.new }
{
    kritnamon::kritnamon_reported(state, place, out)
}

#[unsafe(no_mangle)]
pub extern "C" fn kritnamon_step(
    n: u32,
    own: u32,
    event: u32,
    a: u32,
    b: u32,
    state: &mut [u8],
    input: &[u8],
    out: &mut [u8],
) -> u64
    ensures { Answers (step_of (call n own event a b state.old input.now out.old)) input.now result state.new out.new }
{
    kritnamon::kritnamon_step(n, own, event, a, b, state, input, out)
}
