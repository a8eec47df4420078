//! Shared actions by their names.
use act_kinds::Params;
use act_registry::{Registry, RegistryFault};
use std::test::Fail;

// Kind 1 is gact.
#[test]
fn nothing_is_bound_where_nothing_is(rt: HostRuntime) -> Result<(), Fail> {
    let mut registry: Registry<Params> = Registry::new(rt.alloc());
    assert!(rt; matches!(registry.bind(1, 9), Err(RegistryFault::NoSuchAction)));
    assert!(rt; registry.find(1, 9).is_none());
    Ok(())
}
