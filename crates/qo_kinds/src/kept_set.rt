//! The claims that a body holds.

ghost use Rattle.std.specs.Prelude.{◌≡◌, None};
ghost use Rattle.qo_kinds.specs.Bodies.{none_kept};

use qo_claims::Kept;

/// The claims of a device, each where it holds one.
pub struct KeptSet {
    /// Its slot on its bus.
    pub slot: Option<Kept>,
    /// The ring of its character device.
    pub ring: Option<Kept>,
    /// Its memory backend.
    pub backend: Option<Kept>,
    /// Its range of addresses.
    pub range: Option<Kept>,
}

impl KeptSet {
    /// No claim. It takes no memory.
    pub fn none() -> KeptSet
        ensures { result ≡ none_kept }
    {
        KeptSet {
            slot: None,
            ring: None,
            backend: None,
            range: None,
        }
    }

    /// Takes all claims out. It takes no memory.
    pub fn take(&mut self) -> KeptSet
        ensures taken { result ≡ self.old }
        ensures left { self.new ≡ none_kept }
    {
        KeptSet {
            slot: self.slot.take(),
            ring: self.ring.take(),
            backend: self.backend.take(),
            range: self.range.take(),
        }
    }
}

/// Ends a claim that is none. It takes no memory.
pub fn no_claim(kept: Option<Kept>)
    requires { kept ≡ None }
{
    match kept {
        None => {}
        Some(_) => unreachable!(),
    }
}

/// Ends a set without claims. It takes no memory.
pub fn end_none(kept: KeptSet)
    requires { kept ≡ none_kept }
{
    let KeptSet {
        slot,
        ring,
        backend,
        range,
    } = kept;
    no_claim(slot);
    no_claim(ring);
    no_claim(backend);
    no_claim(range);
}
