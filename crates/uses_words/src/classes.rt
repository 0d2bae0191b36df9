//! The classes of requests at the edges of the table, and a caller of all three calls.

ghost use Rattle.std.specs.Prelude.{◌≡◌, ◌<◌, ◌≤◌, MatchOption};
ghost use Rattle.size_classes.specs.Classes.{class_objects, class_size, IsLeast};

use size_classes::{class_bytes, class_of, class_with, objects_of};

/// The bytes and the number of the objects that serve a request.
fn served_by(bytes: u32) -> Option<(u32, u32)>
    requires { 1 ≤ bytes }
    ensures { MatchOption result (8192 < bytes) (λ s. bytes ≤ s.0) }
{
    match class_of(bytes) {
        Some(class) => Some((class_bytes(class), objects_of(class))),
        None => None,
    }
}

#[test]
fn a_request_gets_the_least_class_that_holds_it(rt: HostRuntime) {
    assert_eq!(rt; class_of(1), Some(2));
    assert_eq!(rt; class_of(8), Some(2));
    assert_eq!(rt; class_of(9), Some(3));
    assert_eq!(rt; class_of(1025), Some(26));
    assert_eq!(rt; class_of(8192), Some(37));
    assert_eq!(rt; class_of(8193), None);
}

#[test]
fn a_class_has_its_size_and_objects(rt: HostRuntime) {
    assert_eq!(rt; served_by(1), Some((8, 8192)));
    assert_eq!(rt; served_by(1300), Some((1560, 42)));
    assert_eq!(rt; served_by(8192), Some((8192, 8)));
    assert_eq!(rt; served_by(8193), None);
}

#[test]
fn the_class_of_just_so_many_bytes(rt: HostRuntime) {
    assert_eq!(rt; class_with(0), None);
    assert_eq!(rt; class_with(8), Some(2));
    assert_eq!(rt; class_with(1300), None);
    assert_eq!(rt; class_with(1560), Some(27));
    assert_eq!(rt; class_with(8192), Some(37));
    assert_eq!(rt; class_with(8200), None);
}
