//! What no clause says: that a slot is added with ample memory.
use crate::names::name_of;
use qo_object::{Object, Oid, Slot};
use qo_values::{TypeId, Val};
use std::test::Fail;

#[test]
fn a_slot_is_added_with_ample_memory(rt: HostRuntime) -> Result<(), Fail> {
    let name = name_of(rt.alloc(), "bus").expect(&rt, "a name");
    let mut object = Object::new(rt.alloc(), TypeId::Device);
    object.add(name, Slot::Child(Oid { index: 3, birth: 7 }))?;
    assert_eq!(rt; object.len(), 1);
    Ok(())
}

#[test]
fn many_slots_are_added_with_ample_memory(rt: HostRuntime) -> Result<(), Fail> {
    let mut object = Object::new(rt.alloc(), TypeId::Container);
    for text in [
        "a", "b", "c", "d", "e", "f", "g", "h", "i", "j", "k", "l", "m", "n", "o",
    ] {
        let name = name_of(rt.alloc(), text).expect(&rt, "a name");
        object.add(name, Slot::Plain(Val::Nothing))?;
    }
    assert_eq!(rt; object.find("o"), Some(14));
    Ok(())
}
