//! The registers as a table of the profile gives them, written by hand.
use qo_dimm::Dimm;

#[test]
fn reads_each_register(rt: HostRuntime) {
    let wide = Dimm {
        addr: 0x0000_0010_fedc_b000,
        size: 0x0000_0100_0000_0000,
    };
    let first = Dimm {
        addr: 4_294_967_296,
        size: 1_048_576,
    };
    for (dimm, halves) in [
        (wide, [0xfedc_b000, 0x10, 0, 0x100]),
        (first, [0, 1, 0x10_0000, 0]),
    ] {
        for (reg, half) in (0..4).zip(halves) {
            assert_eq!(rt; dimm.read(reg), Some(half), "register {reg}");
        }
        assert_eq!(rt; dimm.read(4), None);
    }
}
