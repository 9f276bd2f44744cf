//! What sessions are told of.

ghost use Rattle.std.specs.Prelude.{◌≡◌, IfOk};
ghost use Rattle.qo_commands.specs.Commands.{event_of};
ghost use Rattle.qo_replies.specs.Events.{event_line};
ghost use Rattle.qo_replies.specs.declared.events.Event as declared;

use qo_causes::Moment;
use qo_events::DeviceEvent;
use qo_replies::{Event, device_event_text, event_text};
use qo_values::Chars;
use std::alloc::{AllocError, Global};

/// What sessions are told of: the event of a command or a line, or one on a device that waited on the board.
pub(crate) trait Emitted {
    // The event.
    ghost event: { Self → declared.Event };

    /// The line of the event, stamped by a moment. The error is want of memory.
    fn line(&self, alloc: Global, at: Moment) -> Result<Chars, AllocError>
        ensures { IfOk result (λ line. line ≡ event_line at (event self.now)) };
}

impl Emitted for Event {
    ghost event = { λ e. e };

    fn line(&self, alloc: Global, at: Moment) -> Result<Chars, AllocError> {
        event_text(alloc, at, self)
    }
}

impl Emitted for DeviceEvent {
    ghost event = { λ e. event_of e };

    fn line(&self, alloc: Global, at: Moment) -> Result<Chars, AllocError> {
        device_event_text(alloc, at, self.is_deleted(), self.id(), self.path())
    }
}
