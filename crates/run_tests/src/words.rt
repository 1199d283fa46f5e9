// Words that are in no form.
use crate::runs::{ZEROS, words_of};
use alloc_cli::{Cause, run};
use device_core::{MemoryFiles, SureSink};
use std::alloc::{AllocError, Global};
use std::test::Fail;

// Seeds of 63 and of 65 digits.
const SHORT_SEED: &str = "000000000000000000000000000000000000000000000000000000000000000";

const LONG_SEED: &str = "00000000000000000000000000000000000000000000000000000000000000000";

// How a run over no files at all ends. Each load would fail.
fn cause_without_files(alloc: Global, words: &[&str]) -> Result<Cause, AllocError> {
    let words = words_of(alloc, words)?;
    let mut files = MemoryFiles::new(Vec::new(alloc), Vec::new(alloc));
    let (mut out, mut err) = (SureSink::new(alloc), SureSink::new(alloc));
    Ok(run(alloc, &words, &mut files, &mut out, &mut err).cause)
}

#[test]
fn usage_words(rt: HostRuntime) -> Result<(), Fail> {
    let forms: [&[&str]; 55] = [
        &["decompose", "matrix.csv"],
        &["decompose", "matrix.csv", "quotas.csv", "more.csv"],
        &["solve"],
        &["decompose-free", "matrix.csv"],
        &["sides", "matrix.csv"],
        &["Sides", "matrix.csv", "quotas.csv"],
        &["solve", "prefs.csv"],
        &["solve", "prefs.csv", "quotas.csv", "more.csv"],
        &["table", "prefs.csv"],
        &["Table", "prefs.csv", "quotas.csv"],
        &["sets"],
        &["sets", "prefs.csv"],
        &["sets", "prefs.csv", "quotas.csv", "more.csv"],
        &[],
        &["pick"],
        &["pick", "lottery.csv"],
        &["pick", "lottery.csv", "-1"],
        &["pick", "lottery.csv", ""],
        &["pick", "lottery.csv", "+1"],
        &["pick", "lottery.csv", "1.0"],
        &[
            "pick",
            "lottery.csv",
            "0000000000000000000000000000000000000001",
        ],
        &[
            "pick",
            "lottery.csv",
            "340282366920938463463374607431768211456",
        ],
        &["pick", "lottery.csv", "1", "1"],
        &["Pick", "lottery.csv", "1"],
        &["draw", "lottery.csv"],
        &["draw", "lottery.csv", "1"],
        &["draw", "lottery.csv", "-1"],
        &["draw", "lottery.csv", SHORT_SEED],
        &["draw", "lottery.csv", LONG_SEED],
        &["draw", "lottery.csv", ZEROS, "1"],
        &["report"],
        &["report", "lottery.csv", "1"],
        &["Report", "lottery.csv"],
        &["audit", "lottery.csv"],
        &["audit", "prefs.csv", "quotas.csv"],
        &["audit", "prefs.csv", "quotas.csv", "lottery.csv", "more"],
        &["audit-matrix", "matrix.csv", "quotas.csv"],
        &["audit_matrix", "matrix.csv", "quotas.csv", "lottery.csv"],
        &["generate"],
        &["generate", "1", "1"],
        &["generate", "1", "1", "1"],
        &["generate", SHORT_SEED, "1", "1"],
        &["generate", LONG_SEED, "1", "1"],
        &["generate", ZEROS, "1", "1", "1"],
        &["generate", ZEROS, "0", "1"],
        &["generate", ZEROS, "-1", "1"],
        &["generate", ZEROS, "1", "-1"],
        &["generate", ZEROS, "1001", "1"],
        &["generate", ZEROS, "1", "201"],
        &[
            "generate",
            ZEROS,
            "340282366920938463463374607431768211457",
            "1",
        ],
        &["pact-commit", "A"],
        &["pact-commit", "A", SHORT_SEED],
        &["pact-draw", "lottery.csv"],
        &["pact-draw", "lottery.csv", "pact.csv", "more"],
        &["--help"],
    ];
    for words in forms {
        assert_eq!(rt; cause_without_files(rt.alloc(), words)?, Cause::Usage);
    }
    let any_name = cause_without_files(rt.alloc(), &["pick", "", "0001"])?;
    assert_eq!(rt; any_name, Cause::ReadFault { file: 1 });
    Ok(())
}
