//! Two digests by one reading.
use ocfl_digest::{Algorithm, Wanted, hash_bytes};
use std::test::Fail;

#[test]
fn only_wanted_digests_are_computed(rt: HostRuntime) -> Result<(), Fail> {
    let wanted = Wanted::none().with(Algorithm::Md5).with(Algorithm::Sha512);
    let digests = hash_bytes(b"abc", wanted);
    let md5 = digests.get(Algorithm::Md5);
    assert!(rt; md5 == Some(b"\x90\x01\x50\x98\x3c\xd2\x4f\xb0\xd6\x96\x3f\x7d\x28\xe1\x7f\x72"));
    assert!(rt; digests.get(Algorithm::Sha256).is_none());
    Ok(())
}
