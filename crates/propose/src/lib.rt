// Propose: a command joins a leader's log.
#![tactic(auto)]

ghost use Rattle.std.specs.Prelude.{◌≡◌, ◌≤◌, ◌<◌, length};
ghost use Rattle.kinds.specs.Sizes.{hubs_most, limit};
ghost use Rattle.command.specs.Proposal.{read_proposal};
ghost use Rattle.state.specs.Image.{image, state_in};
ghost use Rattle.rules.specs.Events.{propose};
ghost use Rattle.kinds.specs.Caller.{who_in};
ghost use Rattle.promise.specs.Promise.{Ready, Quiet, Adds};
ghost use Rattle.promise.specs.Heads.{grown};

use kinds::{Caller, Hub, Place, Refusal};
use state::Head;

// A leader's log has one entry more; own confirmed length follows.
#[tactic(auto, using(kinds::proofs::SizesLaws::limit_small), unfolding(promise::specs::Heads::grown))]
fn grow(h: Head, own: Hub) -> Head
    requires { (1 ≤ own.0) × (own.0 ≤ hubs_most) × (h.length.0 < limit) }
    ensures { result ≡ grown h own.0 }
{
    let long = Place::from(u32::from(h.length) + 1);
    let mut next = Head { length: long, ..h };
    next.confirmed[state::index_of(own)] = long;
    next
}

// Adds a command with the present term behind a leader's log.
fn add_entry(g: Caller, h: Head, state: &mut [u8], command: &[u8])
    requires { Adds (who_in g) h state.old command.now }
    ensures { state.new ≡ image (propose (who_in g) (state_in state.old) (read_proposal command.now)).state }
{
    let row = head::row_after(h.length);
    rows::put_row(state, row, h.term, rows::words_at(command, 0));
    head::write_head(state, grow(h, g.own));
}

// Propose (leader): the command is added with the present term; own confirmed length follows.
// (`Ready` is asked of the bytes, here and of three more: a type over `&mut` bytes would be false between the rows' write and the head's.)
pub fn propose_at(g: Caller, state: &mut [u8], command: &[u8]) -> Result<(), Refusal>
    requires { Ready (who_in g) state.old }
    ensures { Quiet (propose (who_in g) (state_in state.old) (read_proposal command.now)) state.old result state.new }
{
    let h = head::read_head(state);
    if h.role != kinds::LEADER {
        return Err(Refusal::WrongRole);
    }
    if !lawful::is_proposal(command) {
        return Err(Refusal::BadCommand);
    }
    if kinds::places() <= h.length.into() {
        return Err(Refusal::LogFull);
    }
    add_entry(g, h, state, command);
    Ok(())
}
