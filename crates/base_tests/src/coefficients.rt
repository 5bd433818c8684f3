use coefficient_round::{
    dir_coef, directions_and_weights_are_nearest, dist_coef, distance_coefficients_are_rounded,
    length_squared, weight_of,
};

#[test]
fn known_coefficients(rt: HostRuntime) {
    assert_eq!(rt; dist_coef(30000, 30000, 40000), 6000);
    assert_eq!(rt; dist_coef(40000, 30000, 40000), 8000);
    assert_eq!(rt; dist_coef(-30000, -30000, 40000), -6000);
    assert_eq!(rt; dist_coef(0, 0, 1000), 0);
    assert_eq!(rt; dist_coef(100000000, 100000000, 0), 10000);
    assert_eq!(rt; dir_coef(40000, 30000, 40000), 101859);
    assert_eq!(rt; dir_coef(30000, 30000, 40000), 76394);
    assert_eq!(rt; dir_coef(-30000, -30000, 40000), -76394);
    // 6366200000 * 8896 over twice the square of 8896 is 357812.5
    assert_eq!(rt; dir_coef(8896, 8896, 8896), 357813);
    assert_eq!(rt; dir_coef(-8896, -8896, 8896), -357813);
    assert_eq!(rt; length_squared(30000, -40000), 2500000000);
    assert_eq!(rt; weight_of(100), 10000);
    assert_eq!(rt; weight_of(800), 156);
    assert_eq!(rt; weight_of(1500), 44);
    assert_eq!(rt; weight_of(10), 1000000);
    assert_eq!(rt; weight_of(10000), 1);
    distance_coefficients_are_rounded();
    directions_and_weights_are_nearest();
}
