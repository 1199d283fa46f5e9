// Runs of `run` over devices that never fail, and what they write.
use alloc_cli::{Cause, run};
use device_core::{SureFiles, SureSink};
use std::alloc::{AllocError, Global};
use std::process::Abort;

// The digits of a seed of zeros.
pub(crate) const ZEROS: &str = "0000000000000000000000000000000000000000000000000000000000000000";

// A lottery without prices: two agents, two objects, two pieces.
pub(crate) const PLAIN: &str =
    "lottery,1\ndenominator,2\nagents,x,y\nobjects,a,b\nrow,x,1,1\nrow,y,1,1\n\
piece,1,1\ngive,x,a,1\ngive,y,b,1\npiece,2,1\ngive,x,b,1\ngive,y,a,1\nend,2\n";

// A lottery with prices of two agents.
pub(crate) const PRICED_TWO: &str = "lottery,1\ndenominator,2\nagents,x,y\nobjects,a,b,none\n\
row,x,1,1,0\nrow,y,1,1,0\nprice,1,4\nprice,2,0\n\
worth,x,a,4\nworth,x,b,0\nworth,x,none,-1\nworth,y,a,4\nworth,y,b,0\nworth,y,none,-1\n\
piece,1,1\ngive,x,a,1\ngive,y,b,1\npiece,2,1\ngive,x,b,1\ngive,y,a,1\nend,2\n";

// A lottery with prices of three agents.
pub(crate) const PRICED_THREE: &str = "lottery,1\ndenominator,6\nagents,x,y,z\nobjects,a,b,none\n\
row,x,3,1,2\nrow,y,3,1,2\nrow,z,0,4,2\nprice,1,8\nprice,2,4\n\
worth,x,a,8\nworth,x,b,4\nworth,x,none,0\nworth,y,a,8\nworth,y,b,4\nworth,y,none,0\n\
worth,z,b,4\nworth,z,a,1\nworth,z,none,0\n\
piece,1,1\ngive,x,a,1\ngive,y,b,1\ngive,z,none,1\n\
piece,2,2\ngive,x,a,1\ngive,y,none,1\ngive,z,b,1\n\
piece,3,1\ngive,x,b,1\ngive,y,a,1\ngive,z,none,1\n\
piece,4,2\ngive,x,none,1\ngive,y,a,1\ngive,z,b,1\nend,4\n";

// How a run over sure devices ended, and what it wrote.
#[derive(Drop)]
pub(crate) struct Seen {
    pub(crate) status: u8,
    pub(crate) cause: Cause,
    pub(crate) out: Vec<u8>,
    pub(crate) err: Vec<u8>,
}

// These words as strings.
pub(crate) fn words_of(alloc: Global, words: &[&str]) -> Result<Vec<String>, AllocError> {
    let mut all = Vec::new(alloc);
    for word in words {
        all.push(String::from_str(alloc, word)?)?;
    }
    Ok(all)
}

// One file, of the name that every test uses.
pub(crate) fn one_file(alloc: Global, bytes: &[u8]) -> Result<Vec<(String, Vec<u8>)>, AllocError> {
    let mut files = Vec::new(alloc);
    files.push((
        String::from_str(alloc, "lottery.csv")?,
        bytes.to_vec(alloc)?,
    ))?;
    Ok(files)
}

// Preferences and quotas, of the names that every test uses.
pub(crate) fn two_files(
    alloc: Global,
    prefs: &[u8],
    quotas: &[u8],
) -> Result<Vec<(String, Vec<u8>)>, AllocError> {
    let mut files = Vec::new(alloc);
    files.push((String::from_str(alloc, "prefs.csv")?, prefs.to_vec(alloc)?))?;
    files.push((
        String::from_str(alloc, "quotas.csv")?,
        quotas.to_vec(alloc)?,
    ))?;
    Ok(files)
}

// Two files and a lottery, of the names that every test uses.
pub(crate) fn three_files(
    alloc: Global,
    prefs: &[u8],
    quotas: &[u8],
    lottery: &[u8],
) -> Result<Vec<(String, Vec<u8>)>, AllocError> {
    let mut files = two_files(alloc, prefs, quotas)?;
    files.push((
        String::from_str(alloc, "lottery.csv")?,
        lottery.to_vec(alloc)?,
    ))?;
    Ok(files)
}

// A run of these words over one file.
pub(crate) fn run_on(alloc: Global, words: &[&str], bytes: &[u8]) -> Result<Seen, AllocError> {
    run_over(alloc, words, one_file(alloc, bytes)?)
}

// A run of these words over these files.
fn run_over(
    alloc: Global,
    words: &[&str],
    files: Vec<(String, Vec<u8>)>,
) -> Result<Seen, AllocError> {
    let words = words_of(alloc, words)?;
    let mut files = SureFiles::new(files);
    let (mut out, mut err) = (SureSink::new(alloc), SureSink::new(alloc));
    let ended = run(alloc, &words, &mut files, &mut out, &mut err);
    Ok(Seen {
        status: ended.status,
        cause: ended.cause,
        out: out.bytes().to_vec(alloc)?,
        err: err.bytes().to_vec(alloc)?,
    })
}

// A run of these words over no files.
pub(crate) fn run_alone(alloc: Global, words: &[&str]) -> Result<Seen, AllocError> {
    run_over(alloc, words, Vec::new(alloc))
}

// A run of this command over three files.
pub(crate) fn run_on_three(
    alloc: Global,
    command: &str,
    prefs: &[u8],
    quotas: &[u8],
    lottery: &[u8],
) -> Result<Seen, AllocError> {
    let words = [command, "prefs.csv", "quotas.csv", "lottery.csv"];
    let files = three_files(alloc, prefs, quotas, lottery)?;
    run_over(alloc, &words, files)
}

// This audit of a lottery for two files ends with `pass`.
pub(crate) fn check_passes(
    rt: &(impl Abort + AllocGlobal),
    command: &str,
    first: &[u8],
    second: &[u8],
    lottery: &[u8],
) -> Result<(), AllocError> {
    let seen = run_on_three(rt.alloc(), command, first, second, lottery)?;
    assert_eq!(rt; seen.err.as_slice(), b"".as_slice(), "err of {command}");
    assert_eq!(rt; seen.status, 0, "status of {command}");
    assert_eq!(rt;
        seen.out.as_slice(),
        b"pass\n".as_slice(),
        "out of {command}"
    );
    Ok(())
}

// A run of this command over these files.
pub(crate) fn run_on_both(
    alloc: Global,
    command: &str,
    prefs: &[u8],
    quotas: &[u8],
) -> Result<Seen, AllocError> {
    let files = two_files(alloc, prefs, quotas)?;
    run_over(alloc, &[command, "prefs.csv", "quotas.csv"], files)
}

// This command on these files ends with this status, and writes this to each sink.
pub(crate) fn check_both(
    rt: &(impl Abort + AllocGlobal),
    command: &str,
    prefs: &[u8],
    quotas: &[u8],
    status: u8,
    out: &str,
    err: &str,
) -> Result<(), AllocError> {
    let seen = run_on_both(rt.alloc(), command, prefs, quotas)?;
    assert_eq!(rt; seen.status, status, "status, not {out}{err}");
    assert_eq!(rt; seen.out.as_slice(), out.as_bytes(), "out, not {out}");
    assert_eq!(rt; seen.err.as_slice(), err.as_bytes(), "err, not {err}");
    Ok(())
}
