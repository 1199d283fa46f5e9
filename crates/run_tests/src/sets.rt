// `sets`: the stated sets of a problem.
use crate::cases::{
    AS_A_SPREADSHEET_WRITES_IT, Case, EQUAL_AND_EMPTY_SETS, LEAST_CROSSING_PAIR, check_input_faults,
};
use crate::runs::check_both;
use std::alloc::{AllocError, Global};
use std::process::Abort;
use std::test::Fail;

// `sets` refuses the files with this line.
fn check_sets_refused(
    rt: &(impl Abort + AllocGlobal),
    prefs: &[u8],
    quotas: &[u8],
    line: &str,
) -> Result<(), AllocError> {
    check_both(rt, "sets", prefs, quotas, 3, "", line)
}

#[test]
fn equal_and_empty_sets(rt: HostRuntime) -> Result<(), Fail> {
    check_both(
        &rt,
        "sets",
        EQUAL_AND_EMPTY_SETS.prefs,
        EQUAL_AND_EMPTY_SETS.quotas,
        0,
        "set,1,2,0,2,3,0\nset,2,2,0,1,3,0\nset,3,2,0,1,2,4\nset,4,2,0,2,2,1\nset,5,2,0,0,0,0\nend,5\n",
        "",
    )?;
    Ok(())
}

#[test]
fn least_crossing_pair(rt: HostRuntime) -> Result<(), Fail> {
    check_sets_refused(
        &rt,
        LEAST_CROSSING_PAIR.prefs,
        LEAST_CROSSING_PAIR.quotas,
        "crossing: sets 2 3\n",
    )?;
    Ok(())
}

#[test]
fn as_a_spreadsheet_writes_it(rt: HostRuntime) -> Result<(), Fail> {
    let Case { prefs, quotas } = AS_A_SPREADSHEET_WRITES_IT;
    let listed = "set,1,2,0,1,2,0\nset,2,2,0,1,2,0\nend,2\n";
    check_both(&rt, "sets", prefs, quotas, 0, listed, "")?;
    let mut more = prefs.to_vec(rt.alloc())?;
    more.extend_from_slice(b"Kim,East\r\n")?;
    check_sets_refused(&rt, &more, quotas, "input: file 1 record 5 kind 5\n")?;
    Ok(())
}

#[test]
fn one_case_per_input_fault(rt: HostRuntime) -> Result<(), Fail> {
    check_input_faults(&rt, "sets")?;
    Ok(())
}

// So many lines, each with a number between these texts.
pub(crate) fn numbered_lines(
    alloc: Global,
    before: &str,
    after: &str,
    count: u32,
) -> Result<Vec<u8>, AllocError> {
    let mut text = Vec::new(alloc);
    for number in 0..count {
        let line = format!(in alloc; "{before}{number}{after}\n")?;
        text.extend_from_slice(line.as_bytes())?;
    }
    Ok(text)
}

#[test]
fn limits_of_inputs(rt: HostRuntime) -> Result<(), Fail> {
    let alloc = rt.alloc();
    let agent: &[u8] = b"agent\nx\n";
    let objects = numbered_lines(alloc, "object,o", ",,1", 201)?;
    check_sets_refused(&rt, agent, &objects, "input: file 2 record 201 kind 17\n")?;
    let mut sets = b"object,a,,1\n".to_vec(alloc)?;
    sets.extend_from_slice(&numbered_lines(alloc, "set,S", ",2", 1000)?)?;
    check_sets_refused(&rt, agent, &sets, "input: file 2 record 1001 kind 17\n")?;
    let mut agents = b"agent\n".to_vec(alloc)?;
    agents.extend_from_slice(&numbered_lines(alloc, "p", "", 1000)?)?;
    let mut cells = numbered_lines(alloc, "object,o", ",,1", 200)?;
    cells.extend_from_slice(&numbered_lines(alloc, "set,S", ",2", 5)?)?;
    cells.extend_from_slice(&numbered_lines(alloc, "in,S", ",*,*", 4)?)?;
    cells.extend_from_slice(b"in,S4,p0,o0\n")?;
    check_sets_refused(&rt, &agents, &cells, "input: file 2 record 210 kind 17\n")?;
    agents.extend_from_slice(b"one_more\n")?;
    check_sets_refused(&rt, &agents, &cells, "input: file 1 record 1002 kind 17\n")?;
    Ok(())
}
