//! What holds of the definitions alone: the sizes of rings, and Base64.

ghost use Rattle.std.specs.Prelude.{◌≡◌};
ghost use Rattle.qo_chardev.specs.Laws.{SizesArePowers, TextsAreEncodings};
ghost use Rattle.qo_chardev.specs.declared.rings.TheConstants.{RING_SIZE_DEFAULT};

/// A number is the size of a ring exactly where it is a power of two up to `RING_SIZE_MAX`.
pub fn law_sizes()
    ensures { SizesArePowers }
{}

/// A text is read as bytes exactly where it is their standard Base64 with padding.
pub fn law_base64()
    ensures { TextsAreEncodings }
{}

/// The size of a ring, in bytes, for which none is given.
pub fn law_default_size()
    ensures { RING_SIZE_DEFAULT ≡ 65536 }
{}
