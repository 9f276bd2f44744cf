//! What holds of the definitions alone: how a recorded stream is read.

ghost use Rattle.std.specs.Prelude.{◌≡◌};
ghost use Rattle.qo_record.specs.declared.windows.TheConstants.{AHEAD_BYTES};
ghost use Rattle.qo_record.specs.Laws.{DemosAreRead, EntriesAreSpelled, FirstDraw, HeaderIsNeeded, InputsAreFew, SpelledStreamsAreRead, StreamsAreLongest};

/// An entry is read exactly where it is spelled and may stand, whatever follows it.
pub fn law_entries()
    ensures { EntriesAreSpelled }
{}

/// After a header of either version the entries of a stream are the longest list of whole ones, and the bad place is that
/// of what is left.
pub fn law_streams()
    ensures { StreamsAreLongest }
{}

/// Without a header a stream has no entries, and its bad place is 0.
pub fn law_header()
    ensures { HeaderIsNeeded }
{}

/// Entries that may stand are read from the stream that spells them, with nothing left.
pub fn law_spelled()
    ensures { SpelledStreamsAreRead }
{}

/// The end is no input of a stream, and there are no more inputs than bytes.
pub fn law_inputs()
    ensures { InputsAreFew }
{}

/// A demo record is read as the inputs of the demo, with nothing left; and the first draw of the seed 1.
pub fn law_demos()
    ensures read { DemosAreRead }
    ensures first { FirstDraw }
{}

/// How far a hub over a source reads ahead, in bytes: fewer than these are held.
pub fn law_ahead()
    ensures { AHEAD_BYTES ≡ 65700 }
{}
