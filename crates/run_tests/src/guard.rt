// `solve-guarded` and `audit-guarded`: two pieces differ by little for each agent.
use crate::audit::{Case, exchanged};
use crate::cases::{LEAST_CROSSING_PAIR, chain_of, check_input_faults};
use crate::runs::{check_both, check_passes, run_on, run_on_both, run_on_three};
use crate::texts::count_of;
use alloc_cli::Cause;
use std::alloc::{AllocError, Global};
use std::process::Abort;
use std::test::Fail;

// Two agents with one list who demand two units each, and one place of each object.
const TWO_OF_THREE: Case = Case {
    prefs: "agent\nx,a,b,c\ny,a,b,c\n",
    quotas: "object,a,,1\nobject,b,,1\nobject,c,,1\nagent,x,2,2\nagent,y,2,2\n",
    lottery: "lottery,1\ndenominator,4\nagents,x,y\nobjects,a,b,c,none\n\
row,x,2,2,2,2\nrow,y,2,2,2,2\nprice,1,15\nprice,2,10\nprice,3,5\n\
worth,x,a,15\nworth,x,b,10\nworth,x,c,5\nworth,x,none,0\n\
worth,y,a,15\nworth,y,b,10\nworth,y,c,5\nworth,y,none,0\n\
piece,1,2\ngive,x,a,1\ngive,x,b,1\ngive,y,c,1\ngive,y,none,1\n\
piece,2,2\ngive,x,c,1\ngive,x,none,1\ngive,y,a,1\ngive,y,b,1\nend,2\n",
};

// This audit of a lottery for the case ends with this status and line.
fn check_audit(
    rt: &(impl Abort + AllocGlobal),
    command: &str,
    files: (&[u8], &[u8]),
    lottery: &[u8],
    status: u8,
    line: &str,
) -> Result<(), AllocError> {
    let seen = run_on_three(rt.alloc(), command, files.0, files.1, lottery)?;
    assert_eq!(rt; seen.err.as_slice(), line.as_bytes(), "err of {command}");
    assert_eq!(rt; seen.status, status, "status of {command}");
    assert!(rt; seen.out.is_empty(), "out of {command}");
    Ok(())
}

// Each ticket gives the agent exactly one of these two columns.
fn check_one_of(
    rt: &(impl Abort + AllocGlobal),
    text: &[u8],
    gives: [&str; 2],
) -> Result<(), AllocError> {
    for ticket in ["0", "1", "2", "3"] {
        let picked = run_on(rt.alloc(), &["pick", "lottery.csv", ticket], text)?.out;
        let found = count_of(&picked, gives[0]).wrapping_add(count_of(&picked, gives[1]));
        assert_eq!(rt; found, 1, "{} at {ticket}", gives[0]);
    }
    Ok(())
}

// Sets 1 to 3 are the columns, 4 and 5 the rows, and 6 and 7 the first two prefixes of x: in the other
// lottery its first two places are given both or not at all.
#[test]
fn guard_binds(rt: HostRuntime) -> Result<(), Fail> {
    let (prefs, quotas) = (
        TWO_OF_THREE.prefs.as_bytes(),
        TWO_OF_THREE.quotas.as_bytes(),
    );
    let seen = run_on_both(rt.alloc(), "solve-guarded", prefs, quotas)?;
    assert_eq!(rt; seen.cause, Cause::Done);
    let other = TWO_OF_THREE.lottery;
    let head = other.split_once("piece").map_or("", |(head, _)| head);
    assert!(rt; seen.out.starts_with(head.as_bytes()));
    for gives in [
        ["give,x,a,1\n", "give,x,b,1\n"],
        ["give,x,c,1\n", "give,x,none,1\n"],
        ["give,y,a,1\n", "give,y,b,1\n"],
        ["give,y,c,1\n", "give,y,none,1\n"],
    ] {
        check_one_of(&rt, &seen.out, gives)?;
    }
    check_passes(&rt, "audit-guarded", prefs, quotas, &seen.out)?;
    check_passes(&rt, "audit", prefs, quotas, other.as_bytes())?;
    let line = "audit failed: 15 1 7 2\n";
    check_audit(
        &rt,
        "audit-guarded",
        (prefs, quotas),
        other.as_bytes(),
        1,
        line,
    )?;
    Ok(())
}

// 199 agents who list eight of ten objects, the last one so many. With eight there are 2,000 sets: ten
// columns, 199 rows, and nine prefixes for each agent.
fn many_prefixes(alloc: Global, last: u32) -> Result<(Vec<u8>, Vec<u8>), AllocError> {
    let mut prefs = b"agent\n".to_vec(alloc)?;
    for agent in 1..=199u32 {
        prefs.extend_from_slice(format!(in alloc; "p{agent}")?.as_bytes())?;
        let listed = if agent == 199 { last } else { 8 };
        for object in 1..=listed {
            prefs.extend_from_slice(format!(in alloc; ",o{object}")?.as_bytes())?;
        }
        prefs.extend_from_slice(b"\n")?;
    }
    let mut quotas = Vec::new(alloc);
    for object in 1..=10u32 {
        quotas.extend_from_slice(format!(in alloc; "object,o{object}\n")?.as_bytes())?;
    }
    Ok((prefs, quotas))
}

#[test]
fn sets_at_their_limit(rt: HostRuntime) -> Result<(), Fail> {
    let (prefs, quotas) = many_prefixes(rt.alloc(), 8)?;
    let solved = run_on_both(rt.alloc(), "solve-guarded", &prefs, &quotas)?.out;
    check_passes(&rt, "audit-guarded", &prefs, &quotas, &solved)?;
    Ok(())
}

// With nine choices there is one prefix more, of ten cells. The check of prices comes before, and that of
// pieces after.
#[test]
fn one_set_too_many(rt: HostRuntime) -> Result<(), Fail> {
    let alloc = rt.alloc();
    let (prefs, quotas) = many_prefixes(alloc, 9)?;
    let line = "over guard: sets 2001 cells 13144\n";
    check_both(&rt, "solve-guarded", &prefs, &quotas, 3, "", line)?;
    let solved = run_on_both(alloc, "solve", &prefs, &quotas)?.out;
    let solved = std::str::from_utf8(&solved)?;
    let files = (prefs.as_slice(), quotas.as_slice());
    let pieces = exchanged(&rt, solved, "give,p1,o1,1", "give,p1,o2,1")?;
    check_audit(&rt, "audit-guarded", files, pieces.as_bytes(), 3, line)?;
    let worths = exchanged(&rt, &pieces, "worth,p1,none,-8", "worth,p1,none,0")?;
    let line = "audit failed: 10 1 8 -7 0\n";
    check_audit(&rt, "audit-guarded", files, worths.as_bytes(), 1, line)?;
    Ok(())
}

// 1,000 agents who list five objects, each with its places and its places for agents of odd number: 10
// stated sets with 7,500 cells, 1,000 rows with 6,000, and 6,000 prefixes with 21,000.
#[test]
fn over_guard(rt: HostRuntime) -> Result<(), Fail> {
    let alloc = rt.alloc();
    let mut prefs = b"agent\n".to_vec(alloc)?;
    let mut quotas = b"group,odd".to_vec(alloc)?;
    for agent in 1..=1000u32 {
        prefs.extend_from_slice(format!(in alloc; "p{agent},s1,s2,s3,s4,s5\n")?.as_bytes())?;
        if agent % 2 == 1 {
            quotas.extend_from_slice(format!(in alloc; ",p{agent}")?.as_bytes())?;
        }
    }
    quotas.extend_from_slice(b"\n")?;
    for object in 1..=5u32 {
        quotas.extend_from_slice(format!(in alloc;
            "object,s{object},,200\nset,S{object},2,,100\nin,S{object},odd,s{object}\n"
        )?.as_bytes())?;
    }
    let line = "over guard: sets 7010 cells 34500\n";
    check_both(&rt, "solve-guarded", &prefs, &quotas, 3, "", line)?;
    Ok(())
}

// The causes of `solve`, in its order: a table that is too fine comes before too many sets.
#[test]
fn refused_before_the_guard(rt: HostRuntime) -> Result<(), Fail> {
    check_input_faults(&rt, "solve-guarded")?;
    let (prefs, quotas) = (LEAST_CROSSING_PAIR.prefs, LEAST_CROSSING_PAIR.quotas);
    check_both(
        &rt,
        "solve-guarded",
        prefs,
        quotas,
        3,
        "",
        "crossing: sets 2 3\n",
    )?;
    let (prefs, quotas) = chain_of(rt.alloc(), &["a", "b", "c", "d", "e", "f"], 200)?;
    let line = "too fine: 311973482284542371301330321821976049\n";
    check_both(&rt, "solve-guarded", &prefs, &quotas, 5, "", line)?;
    Ok(())
}
