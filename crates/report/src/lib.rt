// What a hub reports: the commands at places 1 to chosen of its log, and no others. The kept parts of its state alone are looked at.
#![tactic(auto)]

ghost use Rattle.std.specs.Prelude.{◌≡◌};
ghost use Rattle.kinds.specs.Packed.{packed};
ghost use Rattle.kinds.specs.Refusal.{outcome_of};
ghost use Rattle.promise.specs.Promise.{many_of};
ghost use Rattle.rules.specs.Report.{IsReport, report_of, chosen_of};

use kinds::{Place, Refusal};

// The command that a hub reports at a place: its 16 bytes at the start of `out`. A refusal (2: kept parts not legal; 3: too little room; 12: the place is not in
// 1..chosen) leaves every byte.
pub fn reported_at(state: &[u8], place: u32, out: &mut [u8]) -> Result<(), Refusal>
    ensures { IsReport (report_of state.now place out.old) (outcome_of result) out.new }
{
    if !legal::is_kept_legal(state) {
        return Err(Refusal::BadState);
    }
    if out.len() < command::SIZE {
        return Err(Refusal::ShortOutput);
    }
    let chosen = u32::from(head::read_head(state).chosen);
    if !(1..=chosen).contains(&place) {
        return Err(Refusal::OutOfRange);
    }
    let row = head::row_after(Place::from(place - 1));
    rows::put_words(out, 0, rows::words_at(state, row + 4));
    Ok(())
}

// How many commands a hub reports; refused with 2 if the kept parts are not legal.
pub fn chosen_places(state: &[u8]) -> Result<u32, Refusal>
    ensures { packed (outcome_of result) (many_of result) ≡ chosen_of state.now }
{
    if !legal::is_kept_legal(state) {
        return Err(Refusal::BadState);
    }
    Ok(head::read_head(state).chosen.into())
}

// How many commands a hub reports, or the refusal, in the one number that C is told.
// (Like `step::packed` but for the place and the bytes that go with some refusals there.)
pub fn packed(many: Result<u32, Refusal>) -> u64
    ensures { result ≡ packed (outcome_of many) (many_of many) }
{
    match many {
        Ok(n) => kinds::packed(kinds::DONE, n as usize),
        Err(r) => u32::from(r).into(),
    }
}
