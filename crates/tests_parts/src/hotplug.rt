//! What no clause says: that all room is there with ample memory, and the whole life of a device.

use qo_hotplug::{Hotplug, NotPending};
use qo_slots::Key as Oid;

#[test]
fn tells_with_ample_memory(rt: HostRuntime) {
    let mut hotplug = Hotplug::new(rt.alloc()).expect(&rt, "ample memory");
    let device = Oid { index: 3, birth: 9 };
    assert!(rt; hotplug.plug(device).is_ok());
    assert!(rt; hotplug.acked(device) == Err(NotPending));
    assert!(rt; hotplug.ask(device, 7).is_ok());
    assert!(rt; hotplug.acked(device).is_ok());
    assert_eq!(rt; hotplug.pending().len(), 1);
    assert_eq!(rt; hotplug.notices().len(), 2);
    assert!(rt; hotplug.poll().is_some_and(|notice| notice.is_plug()));
    assert!(rt; hotplug.nacked(device).is_ok());
    assert!(rt; hotplug.first_pending().is_none());
}
