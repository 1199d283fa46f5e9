// Runs of `run` over devices of which a call fails.
use crate::cases::{Case, LEAST_CROSSING_PAIR};
use crate::runs::{PLAIN, Seen, ZEROS, two_files, words_of};
use alloc_cli::{Cause, run};
use device_core::{MemoryFiles, MemorySink, SureFiles, SureSink};
use std::alloc::{AllocError, Global};
use std::process::Abort;
use std::test::Fail;

// A lottery that is sound for the preferences and quotas below, and one that splits the matrix.
const SOUND: &str = "lottery,1\ndenominator,1\nagents,x\nobjects,a,none\nrow,x,1,0\nprice,1,1\n\
worth,x,a,1\nworth,x,none,0\npiece,1,1\ngive,x,a,1\nend,1\n";

const SPLIT: &str = "lottery,1\ndenominator,2\nagents,x\nobjects,a\nrow,x,1\n\
piece,1,1\ngive,x,a,1\npiece,2,1\nend,2\n";

// A pact of one party, whose seed names a ticket of each of these lotteries.
const PACT: &str = "pact,1\n\
commit,A,c3f43f2d59222751fd34bbfc11a6f6ffa56a5576976802a6dc41faffaa6d1b78\n\
reveal,A,0000000000000000000000000000000000000000000000000000000000000000\n";

// Lawful files for every command.
fn device_files(alloc: Global) -> Result<Vec<(String, Vec<u8>)>, AllocError> {
    let mut files = two_files(alloc, b"agent\nx,a\n", b"object,a,,1\n")?;
    files.push((
        String::from_str(alloc, "matrix.csv")?,
        b"agent,a\nx,1/2\n".to_vec(alloc)?,
    ))?;
    files.push((
        String::from_str(alloc, "lottery.csv")?,
        PLAIN.as_bytes().to_vec(alloc)?,
    ))?;
    files.push((
        String::from_str(alloc, "sound.csv")?,
        SOUND.as_bytes().to_vec(alloc)?,
    ))?;
    files.push((
        String::from_str(alloc, "split.csv")?,
        SPLIT.as_bytes().to_vec(alloc)?,
    ))?;
    files.push((
        String::from_str(alloc, "pact.csv")?,
        PACT.as_bytes().to_vec(alloc)?,
    ))?;
    Ok(files)
}

// Each call of the files fails in turn, until a run ends with Done.
fn check_failing_loads(
    rt: &(impl Abort + AllocGlobal),
    words: &[&str],
    loads: u8,
) -> Result<(), AllocError> {
    let alloc = rt.alloc();
    let words = words_of(alloc, words)?;
    for call in 0..=loads {
        let mut failing = Vec::new(alloc);
        failing.push(u64::from(call))?;
        let mut files = MemoryFiles::new(device_files(alloc)?, failing);
        let (mut out, mut err) = (SureSink::new(alloc), SureSink::new(alloc));
        let ended = run(alloc, &words, &mut files, &mut out, &mut err);
        if call == loads {
            assert_eq!(rt; ended.cause, Cause::Done);
        } else {
            let file = call.wrapping_add(1);
            let line = format!(in alloc; "read: file {file}\n")?;
            assert_eq!(rt; ended.cause, Cause::ReadFault { file });
            assert_eq!(rt; ended.status, 4);
            assert!(rt; out.bytes().is_empty(), "at {call}");
            assert_eq!(rt; err.bytes(), line.as_bytes());
        }
    }
    Ok(())
}

// The run whose call of `out` of this number fails after so many bytes. Gives what it ended with
// and `out`.
fn run_failing(alloc: Global, words: &[&str], call: u64, kept: usize) -> Result<Seen, AllocError> {
    let words = words_of(alloc, words)?;
    let mut failing = Vec::new(alloc);
    failing.push((call, kept))?;
    let mut files = SureFiles::new(device_files(alloc)?);
    let (mut out, mut err) = (MemorySink::new(alloc, failing), SureSink::new(alloc));
    let ended = run(alloc, &words, &mut files, &mut out, &mut err);
    Ok(Seen {
        status: ended.status,
        cause: ended.cause,
        out: out.bytes().to_vec(alloc)?,
        err: err.bytes().to_vec(alloc)?,
    })
}

// A call of `out` failed, after which `out` has so many bytes, the first of the whole text.
fn check_write_fault(rt: &(impl Abort + AllocGlobal), seen: &Seen, whole: &[u8], length: usize) {
    assert_eq!(rt; seen.cause, Cause::WriteFault);
    assert_eq!(rt; seen.status, 4);
    assert_eq!(rt; seen.err.as_slice(), b"write\n".as_slice());
    assert_eq!(rt; seen.out.len(), length);
    assert!(rt; whole.starts_with(seen.out.as_slice()), "other bytes");
}

// Each call of `out` fails in turn, a write after all, none, one or half of its bytes, until a run
// ends with Done. The last call that can fail is the flush, after the whole text.
fn check_failing_writes(rt: &(impl Abort + AllocGlobal), words: &[&str]) -> Result<(), AllocError> {
    let alloc = rt.alloc();
    let whole = run_failing(alloc, words, u64::MAX, 0)?.out;
    let mut before = 0usize;
    for call in 0..1000u64 {
        let after_all = run_failing(alloc, words, call, usize::MAX)?;
        if after_all.cause == Cause::Done {
            assert_eq!(rt; after_all.out.as_slice(), whole.as_slice());
            assert_eq!(rt; before, whole.len());
            return Ok(());
        }
        let after = after_all.out.len();
        check_write_fault(rt, &after_all, &whole, after);
        let size = after.wrapping_sub(before);
        for kept in [0, 1, size / 2] {
            let length = before.wrapping_add(size.min(kept));
            check_write_fault(rt, &run_failing(alloc, words, call, kept)?, &whole, length);
        }
        before = after;
    }
    assert!(rt; false, "no run ends with Done");
    Ok(())
}

// A call of `err`, how many bytes of the line it keeps, and how many `err` has in the end.
const FAILING_LINES: [(u64, usize, usize); 5] = [
    (0, 0, 0),
    (0, 1, 1),
    (0, 3, 3),
    (0, usize::MAX, 6),
    (1, 0, 6),
];

// Where `out` fails, each call of `err` fails too: the write of the line, and the flush. Status and
// cause stay.
fn check_failing_lines(rt: &(impl Abort + AllocGlobal), words: &[&str]) -> Result<(), AllocError> {
    let alloc = rt.alloc();
    let words = words_of(alloc, words)?;
    for (call, kept, length) in FAILING_LINES {
        let mut files = SureFiles::new(device_files(alloc)?);
        let mut out = MemorySink::new(alloc, vec![in alloc; (0, 0)]?);
        let mut err = MemorySink::new(alloc, vec![in alloc; (call, kept)]?);
        let ended = run(alloc, &words, &mut files, &mut out, &mut err);
        assert_eq!(rt; ended.cause, Cause::WriteFault);
        assert_eq!(rt; ended.status, 4);
        assert_eq!(rt; err.bytes().len(), length);
        assert!(rt; b"write\n".starts_with(err.bytes()), "other bytes");
    }
    Ok(())
}

// Each command on lawful files, and how many it loads.
const COMMANDS: [(&[&str], u8); 17] = [
    (&["pick", "lottery.csv", "1"], 1),
    (&["draw", "lottery.csv", ZEROS], 1),
    (&["solve", "prefs.csv", "quotas.csv"], 2),
    (&["sets", "prefs.csv", "quotas.csv"], 2),
    (&["table", "prefs.csv", "quotas.csv"], 2),
    (&["decompose", "matrix.csv", "quotas.csv"], 2),
    (&["sides", "matrix.csv", "quotas.csv"], 2),
    (&["decompose-free", "matrix.csv", "quotas.csv"], 2),
    (&["audit", "prefs.csv", "quotas.csv", "sound.csv"], 3),
    (
        &["audit-matrix", "matrix.csv", "quotas.csv", "split.csv"],
        3,
    ),
    (&["envy", "prefs.csv", "quotas.csv", "sound.csv"], 3),
    (&["solve-guarded", "prefs.csv", "quotas.csv"], 2),
    (
        &["audit-guarded", "prefs.csv", "quotas.csv", "sound.csv"],
        3,
    ),
    (&["report", "lottery.csv"], 1),
    (&["generate", ZEROS, "4", "3"], 0),
    (&["pact-commit", "Ada, \"A\"", ZEROS], 0),
    (&["pact-draw", "lottery.csv", "pact.csv"], 2),
];

#[test]
fn failing_devices(rt: HostRuntime) -> Result<(), Fail> {
    for (words, loads) in COMMANDS {
        check_failing_loads(&rt, words, loads)?;
        check_failing_writes(&rt, words)?;
        check_failing_lines(&rt, words)?;
    }
    Ok(())
}

// Whichever call of `err` fails, the cause is that of the files, and `err` has a front of the line.
#[test]
fn failing_err(rt: HostRuntime) -> Result<(), Fail> {
    let alloc = rt.alloc();
    let words = words_of(alloc, &["solve", "prefs.csv", "quotas.csv"])?;
    let Case { prefs, quotas } = LEAST_CROSSING_PAIR;
    for call in 0..8u64 {
        let mut files = SureFiles::new(two_files(alloc, prefs, quotas)?);
        let mut out = SureSink::new(alloc);
        let mut err = MemorySink::new(alloc, vec![in alloc; (call, 1)]?);
        let ended = run(alloc, &words, &mut files, &mut out, &mut err);
        assert_eq!(rt;
            ended.cause,
            Cause::Crossing {
                first: 2,
                second: 3
            }
        );
        assert_eq!(rt; ended.status, 3);
        assert!(rt; out.bytes().is_empty());
        assert!(rt;
            b"crossing: sets 2 3\n".starts_with(err.bytes()),
            "at {call}"
        );
    }
    Ok(())
}
