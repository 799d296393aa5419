//! A line of a report, read and written again.
use ocfl_report::{Code, read_line};
use std::test::Fail;

#[test]
fn a_line_is_read_and_written_again(rt: HostRuntime) -> Result<(), Fail> {
    let text = b"E092\to/v1/content/a%25\tsha512 ab cd\n".as_slice();
    let line = read_line(rt.alloc(), text)?;
    assert!(rt; line.code == Code::E092 && line.is_finding());
    assert_eq!(rt; line.place.path(), "o/v1/content/a%");
    let mut written = Vec::new(rt.alloc());
    line.put(&mut written)?;
    assert!(rt; written.as_slice() == text);
    Ok(())
}
