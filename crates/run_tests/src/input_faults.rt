// Faults of preferences, quotas and matrices, at each place at which one is found.
use crate::runs::check_both;
use crate::sets::numbered_lines;
use std::process::Abort;
use std::test::Fail;

// Three agents without lists.
const PREFS: &[u8] = b"agent\nu\nv\nx\n";

#[test]
fn faults_of_a_problem(rt: HostRuntime) -> Result<(), Fail> {
    let cases: [(&[u8], &str); 15] = [
        (b"object,a\nset,S,2,\xff\n", "record 2 kind 1\n"),
        (b"object,a\nagent,u,1000,1000\n", "record 2 kind 17\n"),
        (b"group,*,u\n", "record 1 kind 2\n"),
        (b"group,u,v\n", "record 1 kind 11\n"),
        (b"group,G,u\ngroup,G,v\n", "record 2 kind 11\n"),
        (b"group,G,u,w\n", "record 1 kind 12\n"),
        (b"bundle,*\n", "record 1 kind 2\n"),
        (b"bundle,none\n", "record 1 kind 13\n"),
        (b"object,a\nbundle,a\n", "record 2 kind 11\n"),
        (b"bundle,B\nbundle,B\n", "record 2 kind 11\n"),
        (b"object,a\nbundle,B,a,none\n", "record 2 kind 13\n"),
        (b"object,a\nbundle,B,b\n", "record 2 kind 12\n"),
        (b"set,S,2\nin,S,w,*\n", "record 2 kind 12\n"),
        (b"set,S,2\nin,S,*,none\n", "record 2 kind 13\n"),
        (b"set,S,2\nin,S,*,b\n", "record 2 kind 12\n"),
    ];
    for (quotas, fault) in cases {
        let line = format!(in rt.alloc(); "input: file 2 {fault}")?;
        check_both(&rt, "sets", PREFS, quotas, 3, "", &line)?;
    }
    let star = "input: file 1 record 2 kind 2\n";
    check_both(&rt, "sets", b"agent\nx,*\n", b"", 3, "", star)?;
    check_both(&rt, "sets", b"agent\n*\n", b"", 3, "", star)?;
    let letters = "aaaaaaaaaaaaaaaaaaaaaaaaaaaaaaaaaaaaaaaaaaaaaaaaaaaaaaaaaaaaaaaa";
    let longest = format!(in rt.alloc(); "agent\n{letters}\n")?;
    check_both(&rt, "sets", longest.as_bytes(), b"", 0, "end,0\n", "")?;
    let long = format!(in rt.alloc(); "agent\n{letters}a\n")?;
    check_both(&rt, "sets", long.as_bytes(), b"", 3, "", star)?;
    let mut sets = numbered_lines(rt.alloc(), "set,S", ",2", 1000)?;
    sets.extend_from_slice(b"object,a\n")?;
    let many = "input: file 2 record 1001 kind 17\n";
    check_both(&rt, "sets", PREFS, &sets, 3, "", many)?;
    Ok(())
}

#[test]
fn faults_of_a_matrix(rt: HostRuntime) -> Result<(), Fail> {
    let cases: [(&[u8], &str); 12] = [
        (b"agent,a\nx,\xff\n", "record 2 kind 1\n"),
        (b"", "record 1 kind 3\n"),
        (b"name\n", "record 1 kind 3\n"),
        (b"agent,*\n", "record 1 kind 2\n"),
        (b"agent,none\n", "record 1 kind 2\n"),
        (b"agent,a,a\n", "record 1 kind 11\n"),
        (b"agent,a\n*\n", "record 2 kind 2\n"),
        (b"agent,a\nx\nx\n", "record 3 kind 4\n"),
        (b"agent,a\nx,0,1\n", "record 2 kind 9\n"),
        (b"agent,a\nx,.5\n", "record 2 kind 10\n"),
        (b"agent,a\nx,1001\n", "record 2 kind 17\n"),
        (b"agent,a\n", "record 2 kind 18\n"),
    ];
    for (matrix, fault) in cases {
        let line = format!(in rt.alloc(); "input: file 1 {fault}")?;
        check_both(&rt, "decompose", matrix, b"", 3, "", &line)?;
    }
    Ok(())
}

#[test]
fn limits_of_a_matrix(rt: HostRuntime) -> Result<(), Fail> {
    let mut objects = b"agent".to_vec(rt.alloc())?;
    for number in 0..201u32 {
        let name = format!(in rt.alloc(); ",o{number}")?;
        objects.extend_from_slice(name.as_bytes())?;
    }
    let wide = "input: file 1 record 1 kind 17\n";
    check_both(&rt, "decompose", &objects, b"", 3, "", wide)?;
    let mut agents = b"agent\n".to_vec(rt.alloc())?;
    agents.extend_from_slice(&numbered_lines(rt.alloc(), "p", "", 1001)?)?;
    let long = "input: file 1 record 1002 kind 17\n";
    check_both(&rt, "decompose", &agents, b"", 3, "", long)?;
    let unknown = "input: file 2 record 1 kind 12\n";
    check_both(
        &rt,
        "decompose",
        b"agent,a\nx,0\n",
        b"agent,w\n",
        3,
        "",
        unknown,
    )?;
    Ok(())
}
