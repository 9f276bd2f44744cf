//! What no clause says: that events are added and read with ample memory.

use qo_events::{DeviceEvent, Events};
use qo_values::Text;
use std::alloc::Global;

/// That a device without an id, which stood at a path, was deleted.
fn deleted(alloc: Global, path: &str) -> Option<DeviceEvent> {
    let path = String::from_str(alloc, path).ok()?;
    Some(DeviceEvent::deleted(None, Text::from_string(path)))
}

#[test]
fn adds_with_ample_memory(rt: HostRuntime) {
    let mut events = Events::new(rt.alloc());
    let event = deleted(rt.alloc(), "/machine/unattached/device[0]").expect(&rt, "ample memory");
    assert!(rt; events.add(event).is_ok());
    assert!(rt; events.reserve().is_ok());
    assert_eq!(rt; events.list().len(), 1);
}
