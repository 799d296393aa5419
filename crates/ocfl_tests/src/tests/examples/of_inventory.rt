//! What an inventory names for a path.
use ocfl_digest::Algorithm;
use ocfl_inventory::read_inventory;
use ocfl_tree::Place;
use std::test::Fail;

#[test]
fn an_inventory_names_a_digest(rt: HostRuntime) -> Result<(), Fail> {
    let bytes = br#"{"digestAlgorithm":"sha512","manifest":{"Ab01":["v1/content/f"]}}"#;
    let reading = read_inventory(rt.alloc(), bytes)?;
    assert!(rt; reading.algorithm == Some(Algorithm::Sha512) && reading.remarks.is_empty());
    let path = String::from_str(rt.alloc(), "v1/content/f")?;
    let (Some(table), Some(place)) = (reading.table, Place::from_path(path)) else {
        return Err(Fail::new("no table"));
    };
    let named = table.named(rt.alloc(), &place)?;
    assert!(rt; named.len() == 1 && !named[0].fixity);
    assert_eq!(rt; named[0].digest.as_str(), "ab01");
    Ok(())
}
