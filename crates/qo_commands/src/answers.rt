//! What a line of the guest is answered, as `x-guest` returns it, and the virtual time, as `x-step` does.

ghost use Rattle.std.specs.Prelude.{◌≡◌, IfOk};
ghost use Rattle.qo_commands.specs.Commands.{answer_data, time_data};
ghost use Rattle.qo_replies.specs.Json.{json};

use qo_guest::GuestAnswer;
use qo_replies::{number_member, text_member};
use qo_values::Text;
use std::alloc::{AllocError, Global};

/// The text of an answer, as `x-guest` returns it.
pub fn answer_written(alloc: Global, answer: &GuestAnswer) -> Result<Text, AllocError>
    ensures { IfOk result (λ text. text ≡ json (answer_data answer.now)) }
{
    let text = answer.to_string(alloc)?;
    text_member(alloc, "answer", text.as_str())
}

/// The text of the virtual time, in ns, as `x-step` returns it.
pub fn time_written(alloc: Global, now: u64) -> Result<Text, AllocError>
    ensures { IfOk result (λ text. text ≡ json (time_data now)) }
{
    number_member(alloc, "now", now)
}
