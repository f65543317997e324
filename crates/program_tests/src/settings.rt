//! What no script shows of a relay's settings.

use amt_values::Ip;
use igmp_records::{code_value4, value_code4};
use mld_records::value_code6;
use relay_machine::*;
use std::process::Abort;

fn usual() -> Settings {
    Settings::of_relay(Ip::V4(0xc000_0201))
}

fn may_wait(rt: &impl Abort, response_tenths: u32) {
    let mut settings = usual();
    settings.response_tenths = response_tenths;
    assert!(rt; settings.lawful(), "{response_tenths}");
}

// So the code of MLD, which is asked for too, refuses no response time.
#[test]
fn each_response_time_of_igmp_has_a_code_in_mld(rt: HostRuntime) {
    for code in 1..=255 {
        may_wait(&rt, code_value4(code));
    }
}

// Beside values that have one, and past the greatest.
const WITHOUT_CODE_IN_IGMP: [u32; 4] = [129, 31_743, 31_745, u32::MAX];

const WITHOUT_CODE_IN_MLD: [u32; 10] = [
    32_769,
    32_770,
    32_775,
    65_535,
    65_537,
    3_174_401,
    8_387_583,
    8_387_585,
    8_388_608,
    u32::MAX,
];

#[test]
fn a_value_between_two_codes_has_none(rt: HostRuntime) {
    for value in WITHOUT_CODE_IN_IGMP {
        assert!(rt; value_code4(value).is_none(), "{value} in IGMP");
    }
    for value in WITHOUT_CODE_IN_MLD {
        assert!(rt; value_code6(value).is_none(), "{value} in MLD");
    }
}

#[test]
fn the_greatest_code_is_that_of_the_greatest_value(rt: HostRuntime) {
    assert_eq!(rt; value_code4(31_744), Some(255));
    assert_eq!(rt; value_code6(8_387_584), Some(0xffff));
}

#[test]
fn a_number_is_set_at_its_key(rt: HostRuntime) {
    let mut settings = usual();
    settings.set_number(NumberKey::Groups, 256);
    assert_eq!(rt; settings.number(NumberKey::Groups), 256);
    assert_eq!(rt; settings.limits.sources, 64);
}

#[test]
fn the_greatest_number_is_in_range_and_the_next_is_not(rt: HostRuntime) {
    assert!(rt; NumberKey::PacketLimit.allows(65_000));
    assert!(rt; !NumberKey::PacketLimit.allows(65_001));
}
