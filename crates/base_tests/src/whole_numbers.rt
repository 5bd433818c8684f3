use geo_base::{
    ceil_div, floor_div, grid_exponent, nearest, root_floor, rounded_quotients_are_unique,
    shift_floor, shifts_exponents_and_roots_are_unique,
};

#[test]
fn known_answers(rt: HostRuntime) {
    assert_eq!(rt; floor_div(-7, 2), -4);
    assert_eq!(rt; floor_div(7, 2), 3);
    assert_eq!(rt; ceil_div(-7, 2), -3);
    assert_eq!(rt; ceil_div(7, 2), 4);
    assert_eq!(rt; nearest(5, 2), 3);
    assert_eq!(rt; nearest(-5, 2), -3);
    assert_eq!(rt; nearest(254648000000000, 2500000000), 101859);
    assert_eq!(rt; shift_floor(-5, 1), (-3, false));
    assert_eq!(rt; shift_floor(3, -2), (12, true));
    assert_eq!(rt; grid_exponent(0), 0);
    assert_eq!(rt; grid_exponent(1), -29);
    assert_eq!(rt; grid_exponent(0x400_0000_0000_0000), 0);
    assert_eq!(rt; grid_exponent(0x1000_0000_0000_0000), 1);
    assert_eq!(rt; root_floor(99), 9);
    assert_eq!(rt; root_floor(100), 10);
    rounded_quotients_are_unique();
    shifts_exponents_and_roots_are_unique();
}
