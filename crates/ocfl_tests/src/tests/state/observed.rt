//! A state folder whose checkpoints something hears of.
use ocfl_state::{FolderTrouble, MemState, Observed, Observer, StateFolder};
use std::test::Fail;

/// Keeps the bytes of each checkpoint, one after the other.
#[derive(Drop)]
struct Heard {
    all: Vec<u8>,
}

impl Observer for Heard {
    fn note(&mut self, bytes: &[u8]) {
        let _ = self.all.extend_from_slice(bytes);
    }
}

#[test]
fn checkpoints_are_noted_once_they_are_put(rt: HostRuntime) -> Result<(), Fail> {
    let observer = Heard {
        all: Vec::new(rt.alloc()),
    };
    let folder = MemState::new(rt.alloc());
    let mut observed = Observed { folder, observer };
    observed.put_checkpoint(b"one ")?;
    observed.append(b"abcde")?;
    observed.cut(4)?;
    observed.sync()?;
    observed.folder.fail_call(1);
    assert_eq!(rt;
        observed.put_checkpoint(b"two ").err(),
        Some(FolderTrouble::Failed)
    );
    observed.put_checkpoint(b"three ")?;
    observed.close(1, true)?;
    assert_eq!(rt; observed.observer.all.as_slice(), b"one three ".as_slice());
    assert!(rt; observed.checkpoint()?.is_some() && observed.has_closed(1)?);
    assert_eq!(rt;
        observed.folder.closed()[0].report.as_slice(),
        b"abcd".as_slice()
    );
    let mut piece = [0; 4];
    assert_eq!(rt; (observed.length()?, observed.read(0, &mut piece)?), (0, 0));
    Ok(())
}
