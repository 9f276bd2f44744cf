//! The id of a device.

ghost use Rattle.std.specs.Prelude.{◌≡◌, None};

use qo_claims::{Claim, Kept, keep};
use qo_values::Id;
use std::marker::Model;

/// The id of a device, with the claim by which no other device has it. It can't be let go: it is
/// spent by `into_parts`.
pub struct DeviceId {
    id: Id,
    kept: Kept,
}

impl Model for DeviceId {
    ghost use Rattle.std.specs.Prelude.{◌≡◌, List, ℕ};
    ghost use Rattle.qo_claims.specs.declared.claims.Claimed.TheVariants as on;

    ghost Value = { List ℕ };

    ghost view = { λ d. d.id };

    ghost invariant = { λ d. d.kept ≡ on.Device d.id };
}

impl DeviceId {
    ghost use Rattle.qo_claims.specs.declared.claims.Claimed.TheVariants as on;

    /// An id with the claim on it. It takes no memory.
    pub fn new(id: Id, claim: Claim) -> DeviceId
        requires { claim ≡ on.Device id }
        ensures { result ≡ id }
    {
        DeviceId {
            id,
            kept: keep(claim),
        }
    }

    /// The id. It takes no memory.
    pub fn id(&self) -> &Id
        ensures { result.now ≡ self.now }
    {
        &self.id
    }

    /// The id, and the claim on it, to be freed. It takes no memory.
    pub fn into_parts(self) -> (Id, Kept)
        ensures id { result.0 ≡ self }
        ensures kept { result.1 ≡ on.Device self }
    {
        let DeviceId { id, kept } = self;
        (id, kept)
    }
}

/// Ends what can't be there.
pub fn no_id(id: Option<DeviceId>)
    requires { id ≡ None }
{
    match id {
        None => {}
        Some(_) => unreachable!(),
    }
}
