// Problems on which several commands are tested, and files with one fault each.
use crate::runs::check_both;
use std::alloc::{AllocError, Global};
use std::process::Abort;

// Preferences and quotas.
#[derive(Clone, Copy)]
pub(crate) struct Case {
    pub(crate) prefs: &'static [u8],
    pub(crate) quotas: &'static [u8],
}

pub(crate) const FULL_AT_THE_END: Case = Case {
    prefs: b"agent,first,second\nx,a,b\ny,a,b\n",
    quotas: b"object,a,,1\nobject,b,,1\n",
};

pub(crate) const UNEATEN_PLACE: Case = Case {
    prefs: b"agent\nx,a,b\ny,a,b\nz,b,a\n",
    quotas: b"object,a,,1\nobject,b,,1\n",
};

pub(crate) const TIED_MOMENT: Case = Case {
    prefs: b"agent\n1,a,b,c,d\n2,a,b,c,d\n3,b,a,d,c\n4,b,a,d,c\n",
    quotas: b"object,a,,1\nobject,b,,1\nobject,c,,1\nobject,d,,1\n",
};

pub(crate) const SET_FULL_BEFORE_ITS_COLUMN: Case = Case {
    prefs: b"agent\nx,a,b\ny,a,b\nz,a\n",
    quotas: b"object,a,,2\nobject,b,,1\ngroup,XY,x,y\nset,G,2,,1\nin,G,XY,a\n",
};

pub(crate) const MOMENT_ZERO_IS_RANKED: Case = Case {
    prefs: b"agent,first,second\nx,a,b\ny,a,b\n",
    quotas: b"object,a,,0\nobject,b,,1\n",
};

pub(crate) const EQUAL_AND_EMPTY_SETS: Case = Case {
    prefs: b"agent\nx,a,b\ny,a,b\nz,a\n",
    quotas: b"object,a,,2\nobject,b,,1\ngroup,XY,x,y\nset,G,2,,1\nin,G,XY,a\n\
set,H,2,,2\nin,H,XY,a\nset,E,2,,0\n",
};

pub(crate) const LEAST_CROSSING_PAIR: Case = Case {
    prefs: b"agent\nx,a\ny,a\nz,a\n",
    quotas: b"object,a,,1\nset,A,2,,1\nset,B,2,,1\nset,C,2,,1\n\
in,A,x,a\nin,A,y,a\nin,B,y,a\nin,B,z,a\nin,C,x,a\nin,C,z,a\n",
};

pub(crate) const AS_A_SPREADSHEET_WRITES_IT: Case = Case {
    prefs: b"\xef\xbb\xbfagent,first,second,third\r\n\"Lee, Ada\",North,South,\r\n\
\"O\"\"Dea, Jo\",North,South,none\r\n,,,\r\n",
    quotas: b"object,North,,1\r\nobject,South,0,1\r\n",
};

pub(crate) const ENVY_BETWEEN_DEMANDS_OF_TWO: Case = Case {
    prefs: b"agent\nu,a,b\nv,b,a\np,b\n",
    quotas: b"object,a,,2\nobject,b,,2\nagent,u,2,2\nagent,v,2,2\n",
};

// So many objects of one place; these agents list them all, and each object has one agent more who
// lists it alone.
pub(crate) fn chain_of(
    alloc: Global,
    agents: &[&str],
    objects: u32,
) -> Result<(Vec<u8>, Vec<u8>), AllocError> {
    let mut list = Vec::new(alloc);
    let mut alone = Vec::new(alloc);
    let mut quotas = Vec::new(alloc);
    for number in 1..=objects {
        list.extend_from_slice(format!(in alloc; ",o{number}")?.as_bytes())?;
        alone.extend_from_slice(format!(in alloc; "z{number},o{number}\n")?.as_bytes())?;
        quotas.extend_from_slice(format!(in alloc; "object,o{number},,1\n")?.as_bytes())?;
    }
    let mut prefs = b"agent\n".to_vec(alloc)?;
    for agent in agents {
        prefs.extend_from_slice(agent.as_bytes())?;
        prefs.extend_from_slice(&list)?;
        prefs.extend_from_slice(b"\n")?;
    }
    prefs.extend_from_slice(&alone)?;
    Ok((prefs, quotas))
}

// The command refuses each of these files with its line.
pub(crate) fn check_each_refused(
    rt: &(impl Abort + AllocGlobal),
    command: &str,
    cases: &[(&[u8], &[u8], &str)],
) -> Result<(), AllocError> {
    for (prefs, quotas, line) in cases {
        check_both(rt, command, prefs, quotas, 3, "", line)?;
    }
    Ok(())
}

// The command refuses files with one fault of each kind that preferences and quotas can have.
pub(crate) fn check_input_faults(
    rt: &(impl Abort + AllocGlobal),
    command: &str,
) -> Result<(), AllocError> {
    let p: &[u8] = b"agent\nx,a\n";
    let q: &[u8] = b"object,a,,1\n";
    let cases: [(&[u8], &[u8], &str); 18] = [
        (b"agent\n\xff\n", q, "input: file 1 record 2 kind 1\n"),
        (b"agent\n,a\n", q, "input: file 1 record 2 kind 2\n"),
        (b"name\nx,a\n", q, "input: file 1 record 1 kind 3\n"),
        (b"agent\nx,a\nx\n", q, "input: file 1 record 3 kind 4\n"),
        (b"agent\nx,b\n", q, "input: file 1 record 2 kind 5\n"),
        (b"agent\nx,a,a\n", q, "input: file 1 record 2 kind 6\n"),
        (b"agent\nx,none,a\n", q, "input: file 1 record 2 kind 7\n"),
        (
            b"agent\nx\n",
            b"objects,a,,1\n",
            "input: file 2 record 1 kind 8\n",
        ),
        (
            p,
            b"object,a,,1\nin,G,x\n",
            "input: file 2 record 2 kind 9\n",
        ),
        (p, b"object,a,,one\n", "input: file 2 record 1 kind 10\n"),
        (
            p,
            b"object,a,,1\nobject,a,,1\n",
            "input: file 2 record 2 kind 11\n",
        ),
        (
            p,
            b"object,a,,1\nin,G,x,a\n",
            "input: file 2 record 2 kind 12\n",
        ),
        (
            p,
            b"object,a,,1\nobject,none,,1\n",
            "input: file 2 record 2 kind 13\n",
        ),
        (p, b"object,a,1,1\n", "input: file 2 record 1 kind 14\n"),
        (
            p,
            b"object,a,,1\nset,G,1,,1\n",
            "input: file 2 record 2 kind 15\n",
        ),
        (p, b"object,a,,1001\n", "input: file 2 record 1 kind 17\n"),
        (b"agent\n", q, "input: file 1 record 2 kind 18\n"),
        (
            p,
            b"object,a,,1\nagent,x,,1\n",
            "input: file 2 record 2 kind 19\n",
        ),
    ];
    check_each_refused(rt, command, &cases)
}
