// `report`: the summary of a lottery.
use crate::runs::{PLAIN, PRICED_THREE, PRICED_TWO, run_on};
use alloc_cli::Cause;
use std::alloc::AllocError;
use std::process::Abort;
use std::test::Fail;

// The summary of the lottery of three agents.
const SUMMARY_OF_THREE: &str = "{\"agents\":3,\"columns\":3,\"denominator\":\"6\",\
\"expected\":{\"a\":\"6\",\"b\":\"6\",\"none\":\"6\"},\
\"greatest_weight\":\"2\",\"least_weight\":\"1\",\"pieces\":4,\"priced\":true}\n";

// `report` ends with this status, and writes this to each sink.
fn check_report(
    rt: &(impl Abort + AllocGlobal),
    text: &[u8],
    status: u8,
    out: &str,
    err: &str,
) -> Result<(), AllocError> {
    let seen = run_on(rt.alloc(), &["report", "lottery.csv"], text)?;
    assert_eq!(rt; seen.status, status, "status, not {out}{err}");
    assert_eq!(rt; seen.out.as_slice(), out.as_bytes(), "out, not {out}");
    assert_eq!(rt; seen.err.as_slice(), err.as_bytes(), "err, not {err}");
    Ok(())
}

#[test]
fn summaries(rt: HostRuntime) -> Result<(), Fail> {
    check_report(&rt, PRICED_THREE.as_bytes(), 0, SUMMARY_OF_THREE, "")?;
    let two = "{\"agents\":2,\"columns\":3,\"denominator\":\"2\",\
\"expected\":{\"a\":\"2\",\"b\":\"2\",\"none\":\"0\"},\
\"greatest_weight\":\"1\",\"least_weight\":\"1\",\"pieces\":2,\"priced\":true}\n";
    check_report(&rt, PRICED_TWO.as_bytes(), 0, two, "")?;
    let plain = "{\"agents\":2,\"columns\":2,\"denominator\":\"2\",\
\"expected\":{\"a\":\"2\",\"b\":\"2\"},\
\"greatest_weight\":\"1\",\"least_weight\":\"1\",\"pieces\":2,\"priced\":false}\n";
    check_report(&rt, PLAIN.as_bytes(), 0, plain, "")?;
    Ok(())
}

// Names stand in the order of their bytes, and not in that of the columns; a quote is escaped.
#[test]
fn names_in_order(rt: HostRuntime) -> Result<(), Fail> {
    let text = "lottery,1\ndenominator,3\nagents,x\nobjects,b,\"a\"\"c\",Z,a\nrow,x,1,0,0,2\n\
piece,1,1\ngive,x,b,1\npiece,2,2\ngive,x,a,1\nend,2\n";
    let line = "{\"agents\":1,\"columns\":4,\"denominator\":\"3\",\
\"expected\":{\"Z\":\"0\",\"a\":\"2\",\"a\\\"c\":\"0\",\"b\":\"1\"},\
\"greatest_weight\":\"2\",\"least_weight\":\"1\",\"pieces\":2,\"priced\":false}\n";
    check_report(&rt, text.as_bytes(), 0, line, "")?;
    Ok(())
}

// A text that is cut anywhere but before its last line feed is refused.
#[test]
fn truncated_lottery(rt: HostRuntime) -> Result<(), Fail> {
    let text = PRICED_THREE.as_bytes();
    let whole = text.len();
    assert!(rt; whole > 0);
    for cut in 0..whole - 1 {
        let seen = run_on(rt.alloc(), &["report", "lottery.csv"], &text[..cut])?;
        assert!(rt; matches!(seen.cause, Cause::Lottery(_)), "cut at {cut}");
        assert_eq!(rt; seen.status, 3, "cut at {cut}");
        assert!(rt; seen.out.is_empty(), "cut at {cut}");
    }
    check_report(&rt, &text[..whole - 1], 0, SUMMARY_OF_THREE, "")?;
    check_report(&rt, b"", 3, "", "lottery: record 1 kind 7\n")?;
    Ok(())
}
