//! Places and their order.
use ocfl_tree::{Name, Place};
use std::test::Fail;

#[test]
fn a_directory_comes_before_what_is_in_it(rt: HostRuntime) -> Result<(), Fail> {
    let mut object = Place::root(rt.alloc());
    object.push(Name::new(rt.alloc(), "object")?)?;
    let version = object.child(&Name::new(rt.alloc(), "v1")?)?;
    assert_eq!(rt; version.path(), "object/v1");
    assert!(rt; object < version && version.starts_with(&object));
    Ok(())
}
