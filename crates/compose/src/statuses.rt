//! How a call of the program ends.

ghost use Rattle.std.specs.Prelude.{◌≡◌};
ghost use Rattle.compose.specs.Exits.{exit_code};

/// How the top call ended.
#[derive(Clone, Copy, Debug, PartialEq, Eq)]
pub enum Status {
    /// The run came to its end.
    Done,
    /// The words are no order.
    Usage,
    /// The record has a bad place.
    BadRecord,
    /// Memory ran out.
    Memory,
    /// The source failed.
    ReadFault,
    /// The sink failed.
    WriteFault,
    /// The hub failed.
    HubFault,
    /// There is more input than one call takes.
    InputLimit,
    /// What is to be rebuilt is no description, or a call of the board refuses it.
    BadBoard,
}

impl Status {
    /// The exit status of the program.
    pub fn code(self) -> u8
        ensures { result ≡ exit_code self }
    {
        match self {
            Status::Done => 0,
            Status::Usage => 2,
            Status::BadRecord => 3,
            Status::Memory => 4,
            Status::ReadFault => 5,
            Status::WriteFault => 6,
            Status::HubFault => 7,
            Status::InputLimit => 8,
            Status::BadBoard => 9,
        }
    }
}

/// The status of a call, and the source and the sink that it was given.
pub struct Ran<S, K> {
    /// How it ended.
    pub status: Status,
    /// The exit status of the program, by how it ended.
    pub code: u8,
    /// The source that was given.
    pub source: S,
    /// The sink that was given.
    pub sink: K,
}

impl<S, K> Ran<S, K> {
    /// A call that ended so, with its source and its sink.
    pub(crate) fn ended(status: Status, source: S, sink: K) -> Ran<S, K>
        ensures { result ≡ record { status = status; code = exit_code status; source = source; sink = sink } }
    {
        Ran {
            status,
            code: status.code(),
            source,
            sink,
        }
    }
}
