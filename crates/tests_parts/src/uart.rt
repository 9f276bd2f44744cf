//! The registers as a table of the profile gives them, written by hand.
use qo_uart::{Uart, UartOut};

/// The numbers of the registers.
const DATA: u8 = 0;

const DIVISOR: u8 = 1;

const STATUS: u8 = 2;

const SENT: u8 = 4;

#[test]
fn sends_where_ready_with_a_ring(rt: HostRuntime) {
    let mut uart = Uart::fresh();
    assert_eq!(rt; uart.read(DIVISOR, false, 0), Some(1));
    assert_eq!(rt; uart.read(STATUS, true, 1), Some(3));
    uart.enter();
    uart.hold();
    uart.exit();
    assert_eq!(rt; uart.read(STATUS, true, 1), Some(7));
    let out = UartOut { byte: Some(b'B') };
    assert_eq!(rt; uart.write(DATA, 0xffff_ff42, true), Some(out));
    assert_eq!(rt; uart.read(SENT, true, 1), Some(1));
    assert_eq!(rt; uart.read(6, true, 1), None);
}
