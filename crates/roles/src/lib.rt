// Whether a head is that of a legal state (rules R14 and R15): its numbers, and what each role asks of it.
#![tactic(auto)]

ghost use Rattle.std.specs.Prelude.{◌≡◌, ◌≤◌, length};
ghost use Rattle.kinds.specs.Caller.{who_in};
ghost use Rattle.state.specs.Image.{head_size};
ghost use Rattle.state.specs.Head.{head_in, kept_head, follower_head, candidate_head, leader_head, role_head};
ghost use Rattle.state.specs.Check.{checked_head};

use kinds::Caller;
use state::Head;

// ---- numbers

// Rule R14: ballot ≤ term; chosen ≤ length ≤ the limit; an empty log if ballot is 0.
#[tactic(auto, unfolding(state::specs::Head::kept_head))]
pub fn is_kept_head(h: Head) -> bool
    ensures { result ≡ kept_head h }
{
    h.ballot <= h.term
        && h.chosen <= h.length
        && u32::from(h.length) <= kinds::places()
        && (u32::from(h.ballot) != 0 || u32::from(h.length) == 0)
}

// ---- roles

// Follower: nothing held in the lost parts.
#[tactic(auto, unfolding(state::specs::Head::follower_head))]
fn is_follower_head(h: Head) -> bool
    ensures { result ≡ follower_head h }
{
    u32::from(h.gathered) == 0
        && voters::no_voters(h.voters, 0)
        && lengths::none_confirmed(h.confirmed, 0)
}

// Candidate: ballot below term; a place for each gathered row; voters; no confirmed lengths.
#[tactic(auto, using(kinds::proofs::SizesLaws::limit_small), unfolding(state::specs::Head::candidate_head))]
fn is_candidate_head(g: Caller, h: Head) -> bool
    ensures { result ≡ candidate_head (who_in g) h }
{
    h.ballot < h.term
        && u32::from(h.length).saturating_add(h.gathered.into()) <= kinds::places()
        && voters::are_voters(g, h.voters)
        && lengths::none_confirmed(h.confirmed, 0)
}

// Leader: ballot = term ≥ 1; no voters, nothing gathered; confirmed lengths.
#[tactic(auto, unfolding(state::specs::Head::leader_head))]
fn is_leader_head(g: Caller, h: Head) -> bool
    ensures { result ≡ leader_head (who_in g) h }
{
    h.ballot == h.term
        && 1 <= u32::from(h.term)
        && u32::from(h.gathered) == 0
        && voters::no_voters(h.voters, 0)
        && lengths::are_confirmed(g, h.length, h.confirmed)
}

// What the head's role asks of it. There are three roles.
#[tactic(auto, unfolding(state::specs::Head::role_head))]
fn is_role_head(g: Caller, h: Head) -> bool
    ensures { result ≡ role_head (who_in g) h.role h }
{
    match h.role {
        kinds::FOLLOWER => is_follower_head(h),
        kinds::CANDIDATE => is_candidate_head(g, h),
        kinds::LEADER => is_leader_head(g, h),
        _ => false,
    }
}

// All tests of the head, which was read from these bytes.
#[tactic(auto, unfolding(state::specs::Check::checked_head))]
pub fn is_legal_head(g: Caller, h: Head, s: &[u8]) -> bool
    requires { (head_size ≤ length s.now) × (h ≡ head_in s.now) }
    ensures { result ≡ checked_head (who_in g) s.now }
{
    voters::are_flags(s, 21) && is_kept_head(h) && is_role_head(g, h)
}
