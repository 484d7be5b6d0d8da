use kin_map::{Cartesian, CoreXy, Kinematics};

/// The coordinates of all four drives at one position.
fn coordinates(kinematics: &impl Kinematics) -> [i64; 4] {
    let position = [10_000_000, -4_000_000, 300_000, 7];
    [
        kinematics.coordinate(0, &position),
        kinematics.coordinate(1, &position),
        kinematics.coordinate(2, &position),
        kinematics.coordinate(3, &position),
    ]
}

#[test]
fn drives_of_a_position(rt: HostRuntime) {
    assert!(rt; coordinates(&Cartesian) == [10_000_000, -4_000_000, 300_000, 7]);
    assert!(rt; coordinates(&CoreXy) == [6_000_000, 14_000_000, 300_000, 7]);
}
