//! Nets: a table written by hand.

use qo_irq::{Gate, Net};
use std::test::Fail;

#[test]
fn follows_its_inputs(rt: HostRuntime) -> Result<(), Fail> {
    let alloc = rt.alloc();
    let mut net = Net::new(alloc);
    let first = net.add(Gate::Input)?;
    let second = net.add(Gate::Input)?;
    let either = net.add(Gate::Or(Vec::from_array(alloc, [first, second])?))?;
    let copy = net.add(Gate::Copy(either))?;
    let alone = net.add(Gate::Off(copy, second))?;
    assert_eq!(rt; (first, second, either, copy, alone), (0, 1, 2, 3, 4));
    assert!(rt; !net.level(either) && !net.level(copy) && !net.level(alone));
    net.set(first, true);
    assert!(rt; net.level(either) && net.level(copy) && net.level(alone));
    net.set(second, true);
    assert!(rt; net.level(either) && net.level(copy) && !net.level(alone));
    net.set(first, false);
    assert!(rt; net.level(either) && net.level(copy) && !net.level(alone));
    net.set(second, false);
    assert!(rt; !net.level(either) && !net.level(copy) && !net.level(alone));
    assert_eq!(rt; net.inputs(), 2);
    Ok(())
}
