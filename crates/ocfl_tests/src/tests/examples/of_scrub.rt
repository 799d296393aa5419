//! The audit of a storage root on disk.
use ocfl_digest::Block;
use ocfl_folder::FsTree;
use ocfl_report::Further;
use ocfl_scrub::{Note, audited};
use std::fs;
use std::test::Fail;

#[test]
fn a_storage_root_on_disk_is_audited(rt: HostRuntime) -> Result<(), Fail> {
    fs::create_dir(&rt, "storage-root")?;
    fs::write(&rt, "storage-root/0=ocfl_1.1", b"ocfl_1.1\n")?;
    let mut store = FsTree::at(&rt, "storage-root")?;
    let mut block = Block::new(rt.alloc())?;
    let mut report = Vec::new(rt.alloc());
    let (status, note) = audited(
        rt.alloc(),
        &mut store,
        Further::Nothing,
        &mut block,
        &mut report,
    );
    assert!(rt; status == 0 && matches!(note, Note::Nothing));
    assert!(rt; report.as_slice() == b"ok\t.\t-\n".as_slice());
    fs::remove_dir_all(&rt, "storage-root")?;
    Ok(())
}
