//! Two segments of a timer as the profile's example gives them, written by hand.
use qo_timer::Timer;

/// The numbers of the registers.
const CTRL: u8 = 0;

const RELOAD: u8 = 1;

const COUNT: u8 = 2;

/// The period of a clock of 100 MHz: a tick takes 10 ns.
const TEN_NS: u64 = 42_949_672_960;
/// The period of a clock of 500 MHz: a tick takes 2 ns.
const TWO_NS: u64 = 8_589_934_592;

#[test]
fn counts_each_segment_under_its_period(rt: HostRuntime) {
    let mut timer = Timer::fresh();
    assert_eq!(rt; timer.write(RELOAD, 0x63, 0, TEN_NS), Some(()));
    assert_eq!(rt; timer.write(CTRL, 1, 0, TEN_NS), Some(()));
    assert_eq!(rt; timer.read(COUNT, 25, TEN_NS), Some(0x61));
    timer.pre_update(25, TEN_NS);
    assert_eq!(rt;
        timer.read(COUNT, 1_000, TEN_NS),
        Some(0x61),
        "no segment is open"
    );
    timer.update(25);
    assert_eq!(rt; timer.read(COUNT, 30, TWO_NS), Some(0x5f));
    assert_eq!(rt; timer.read(COUNT, 31, TWO_NS), Some(0x5e));
    timer.halt(31, TWO_NS);
    assert_eq!(rt; timer.read(CTRL, 31, TWO_NS), Some(0));
    assert_eq!(rt; timer.read(COUNT, 1_000, TWO_NS), Some(0x5e));
}
