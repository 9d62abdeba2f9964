// A received message as it is handed on.
#![tactic(auto)]

ghost use Rattle.std.specs.Prelude.{◌≡◌, true};
ghost use Rattle.message.specs.Legal.{legal_message};
ghost use Rattle.message.specs.Walk.{Lie};
ghost use Rattle.message.specs.Answer.{many_in};
ghost use Rattle.refuse.specs.Received.{message_heard};

use message::Fields;

// A legal message: its fields, and its entry lines where they lie in the received text.
#[derive(Clone, Copy)]
pub struct Heard<'a> {
    pub fields: Fields,
    pub lines: &'a [u8],
    ghost lie: { Lie (many_in fields.body) lines.now },
    ghost legal: { legal_message (message_heard fields lines.now) ≡ true },
}
