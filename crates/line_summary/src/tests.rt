//! Summaries worked by hand.
use super::summary_of;
use std::test::Fail;

#[test]
fn each_line_is_told_once(rt: HostRuntime) -> Result<(), Fail> {
    let summary = summary_of(rt.alloc(), b"true\nfalse\ntrue\n")?;
    assert_eq!(rt;
        summary.as_slice(),
        b"false 1\ntrue 2\npairs 3\n".as_slice()
    );
    let none = summary_of(rt.alloc(), b"")?;
    assert_eq!(rt; none.as_slice(), b"pairs 0\n".as_slice());
    Ok(())
}
