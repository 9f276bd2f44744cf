//! What holds of the limits of inputs.

ghost use Rattle.std.specs.Prelude.{◌≡◌};

use crate::inputs::Chunk;

/// The most bytes of a chunk.
pub fn law_chunks()
    ensures { Chunk.MAX ≡ 65536 }
{}
