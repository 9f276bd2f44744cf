//! What no clause says: that each call that takes memory succeeds where there is enough.

use qo_claims::{Claim, ClaimError, Claims, keep};
use qo_values::Id;
use std::test::Fail;

/// Ends a claim, if it was taken; whether it was.
fn ended(claims: &mut Claims, taken: Result<Claim, ClaimError>) -> bool {
    match taken {
        Ok(claim) => {
            claims.give_back(claim);
            true
        }
        Err(_) => false,
    }
}

/// Takes an id, a ring and a backend, and ends the claims on them.
fn takes_names(claims: &mut Claims, id: &Id) -> bool {
    let device = claims.take_id(id);
    let device = ended(claims, device);
    let ring = claims.take_ring(id);
    let ring = ended(claims, ring);
    let backend = claims.take_backend(9);
    let backend = ended(claims, backend);
    device && ring && backend
}

/// Takes a slot and a range, keeps the slot, and ends the claims on them.
fn takes_places(claims: &mut Claims) -> bool {
    let range = claims.take_range(None, 4_096);
    let range = ended(claims, range);
    match claims.take_slot(5, None) {
        Ok(slot) => {
            claims.free(keep(slot));
            range
        }
        Err(_) => false,
    }
}

#[test]
fn takes_each_with_ample_memory(rt: HostRuntime) -> Result<(), Fail> {
    let id = Id::parse(rt.alloc(), "u0")?;
    let mut claims = Claims::new(rt.alloc());
    assert!(rt; takes_names(&mut claims, &id));
    assert!(rt; takes_places(&mut claims));
    Ok(())
}
