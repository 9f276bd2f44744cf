//! That the call which allocates succeeds with ample memory.

use qo_types::TypeTable;
use std::test::Fail;

#[test]
fn lists_types(rt: HostRuntime) -> Result<(), Fail> {
    let types = TypeTable::board().list(rt.alloc(), "user-creatable", true)?;
    assert_eq!(rt; types.len(), 3);
    Ok(())
}
