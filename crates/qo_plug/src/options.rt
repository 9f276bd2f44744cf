//! What is asked for, where a device is to be added.

use qo_values::PropList;

/// What is asked for of a device (the options of QEMU's QAPI, `device_add`).
#[derive(Clone, Copy)]
pub struct DeviceOptions<'a> {
    /// The name of its type.
    pub driver: &'a str,
    /// Its id, if it is to have one.
    pub id: Option<&'a str>,
    /// The path of the bus that it is to go on, if one is named.
    pub bus: Option<&'a str>,
    /// Its properties.
    pub props: &'a PropList,
}
