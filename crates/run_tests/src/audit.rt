// `audit` and `audit-matrix`: whether a lottery is what it should be.
use crate::runs::{PLAIN, run_on_three};
use std::alloc::{AllocError, Global};
use std::process::Abort;
use std::test::Fail;

// A lottery and the two files that it is for.
#[derive(Clone, Copy)]
pub(crate) struct Case {
    pub(crate) prefs: &'static str,
    pub(crate) quotas: &'static str,
    pub(crate) lottery: &'static str,
}

// Two agents with one list, and one with the other way round: the table has an uneaten place.
pub(crate) const THREE: Case = Case {
    prefs: "agent\nx,a,b\ny,a,b\nz,b,a\n",
    quotas: "object,a,,1\nobject,b,,1\n",
    lottery: "lottery,1\ndenominator,6\nagents,x,y,z\nobjects,a,b,none\n\
row,x,3,1,2\nrow,y,3,1,2\nrow,z,0,4,2\nprice,1,8\nprice,2,4\n\
worth,x,a,8\nworth,x,b,4\nworth,x,none,0\nworth,y,a,8\nworth,y,b,4\nworth,y,none,0\n\
worth,z,b,4\nworth,z,a,1\nworth,z,none,0\n\
piece,1,1\ngive,x,a,1\ngive,y,b,1\ngive,z,none,1\n\
piece,2,2\ngive,x,a,1\ngive,y,none,1\ngive,z,b,1\n\
piece,3,1\ngive,x,b,1\ngive,y,a,1\ngive,z,none,1\n\
piece,4,2\ngive,x,none,1\ngive,y,a,1\ngive,z,b,1\nend,4\n",
};

// Two agents with one list, and objects that are full at the end.
pub(crate) const TWO: Case = Case {
    prefs: "agent,first,second\nx,a,b\ny,a,b\n",
    quotas: "object,a,,1\nobject,b,,1\n",
    lottery: "lottery,1\ndenominator,2\nagents,x,y\nobjects,a,b,none\n\
row,x,1,1,0\nrow,y,1,1,0\nprice,1,4\nprice,2,0\n\
worth,x,a,4\nworth,x,b,0\nworth,x,none,-1\nworth,y,a,4\nworth,y,b,0\nworth,y,none,-1\n\
piece,1,1\ngive,x,a,1\ngive,y,b,1\npiece,2,1\ngive,x,b,1\ngive,y,a,1\nend,2\n",
};

// One agent who demands more than there is.
const DEMAND_OF_THREE: Case = Case {
    prefs: "agent\nx,a\n",
    quotas: "object,a,,1\nagent,x,3,3\n",
    lottery: "lottery,1\ndenominator,3\nagents,x\nobjects,a,none\nrow,x,3,6\nprice,1,3\n\
worth,x,a,3\nworth,x,none,0\npiece,1,3\ngive,x,a,1\ngive,x,none,2\nend,1\n",
};

// Two agents who demand two units each, and one who demands one.
pub(crate) const DEMANDS_OF_TWO: Case = Case {
    prefs: "agent\nu,a,b\nv,b,a\np,b\n",
    quotas: "object,a,,2\nobject,b,,2\nagent,u,2,2\nagent,v,2,2\n",
    lottery: "lottery,1\ndenominator,6\nagents,u,v,p\nobjects,a,b,none\n\
row,u,6,2,4\nrow,v,6,6,0\nrow,p,0,4,2\nprice,1,0\nprice,2,4\n\
worth,u,a,8\nworth,u,b,4\nworth,u,none,0\nworth,v,b,8\nworth,v,a,0\nworth,v,none,-1\n\
worth,p,b,4\nworth,p,none,0\n\
piece,1,2\ngive,u,a,1\ngive,u,b,1\ngive,v,a,1\ngive,v,b,1\ngive,p,none,1\n\
piece,2,4\ngive,u,a,1\ngive,u,none,1\ngive,v,a,1\ngive,v,b,1\ngive,p,b,1\nend,2\n",
};

// An agent whose list leaves an object out.
const SHORT_LIST: Case = Case {
    prefs: "agent\nx,b\ny,a\n",
    quotas: "object,a,,1\nobject,b,,1\n",
    lottery: "lottery,1\ndenominator,1\nagents,x,y\nobjects,a,b,none\nrow,x,0,1,0\nrow,y,1,0,0\n\
price,1,0\nprice,2,0\nworth,x,b,1\nworth,x,none,0\nworth,y,a,1\nworth,y,none,0\n\
piece,1,1\ngive,x,b,1\ngive,y,a,1\nend,1\n",
};

// An agent who demands three units, of two places.
const TWO_PLACES: Case = Case {
    prefs: "agent\nx,a\n",
    quotas: "object,a,,2\nagent,x,3,3\n",
    lottery: "lottery,1\ndenominator,1\nagents,x\nobjects,a,none\nrow,x,1,2\nprice,1,0\n\
worth,x,a,1\nworth,x,none,0\npiece,1,1\ngive,x,a,1\ngive,x,none,2\nend,1\n",
};

// Places for all: an agent who demands three units has one of each of two objects, and `none` besides.
const LARGE_PLACES: Case = Case {
    prefs: "agent\nx,a\ny,b,a\n",
    quotas: "object,a,,5\nobject,b,,5\nagent,y,3,3\n",
    lottery: "lottery,1\ndenominator,4\nagents,x,y\nobjects,a,b,none\nrow,x,4,0,0\nrow,y,4,4,4\n\
price,1,0\nprice,2,0\nworth,x,a,1\nworth,x,none,0\nworth,y,b,2\nworth,y,a,1\nworth,y,none,0\n\
piece,1,4\ngive,x,a,1\ngive,y,a,1\ngive,y,b,1\ngive,y,none,1\nend,1\n",
};

// One agent who has one object for sure.
const SURE: Case = Case {
    prefs: "agent\nx,a\n",
    quotas: "object,a,,1\n",
    lottery: "lottery,1\ndenominator,2\nagents,x\nobjects,a,none\nrow,x,2,0\nprice,1,1\n\
worth,x,a,1\nworth,x,none,0\npiece,1,2\ngive,x,a,1\nend,1\n",
};

// Shares of one half each, with floors that bind.
const HALVES: Case = Case {
    prefs: "agent,a,b\nx,1/2,1/2\ny,0.5,1/2\n",
    quotas: "agent,x,1,1\nagent,y,1,1\nobject,a,1,1\nobject,b,1,1\n",
    lottery: PLAIN,
};

// Shares in sixths without quotas, in pieces of several weights.
const SIXTHS: Case = Case {
    prefs: "agent,a,b\nx,1/6,5/6\ny,1/2,1/3\n",
    quotas: "",
    lottery: "lottery,1\ndenominator,6\nagents,x,y\nobjects,a,b\nrow,x,1,5\nrow,y,3,2\n\
piece,1,1\ngive,x,a,1\ngive,y,a,1\npiece,2,2\ngive,x,b,1\ngive,y,a,1\n\
piece,3,2\ngive,x,b,1\ngive,y,b,1\npiece,4,1\ngive,x,b,1\nend,4\n",
};

// The text with its one part `old` exchanged for `new`.
pub(crate) fn exchanged(
    rt: &(impl Abort + AllocGlobal),
    text: &str,
    old: &str,
    new: &str,
) -> Result<String, AllocError> {
    match text.split_once(old) {
        Some((front, back)) => format!(in rt.alloc(); "{front}{new}{back}"),
        None => {
            assert!(rt; false, "{old} isn't there");
            String::from_str(rt.alloc(), text)
        }
    }
}

// The command on the case ends so: `pass` where the line is empty, and else with this line.
fn check_case(
    rt: &(impl Abort + AllocGlobal),
    command: &str,
    case: Case,
    line: &str,
) -> Result<(), AllocError> {
    let (prefs, quotas) = (case.prefs.as_bytes(), case.quotas.as_bytes());
    let seen = run_on_three(rt.alloc(), command, prefs, quotas, case.lottery.as_bytes())?;
    check_seen(rt, seen.status, &seen.out, &seen.err, line);
    Ok(())
}

fn check_seen(rt: &(impl Abort + AllocGlobal), status: u8, out: &[u8], err: &[u8], line: &str) {
    let passes = line.is_empty();
    let (due, text) = if passes { (0, "pass\n") } else { (1, "") };
    assert_eq!(rt; status, due, "status, not {line}");
    assert_eq!(rt; out, text.as_bytes(), "out, not {line}");
    assert_eq!(rt; err, line.as_bytes(), "err, not {line}");
}

// The same with one part of the lottery exchanged.
fn check_change(
    rt: &(impl Abort + AllocGlobal),
    command: &str,
    case: Case,
    old: &str,
    new: &str,
    line: &str,
) -> Result<(), AllocError> {
    let lottery = exchanged(rt, case.lottery, old, new)?;
    let (prefs, quotas) = (case.prefs.as_bytes(), case.quotas.as_bytes());
    let seen = run_on_three(rt.alloc(), command, prefs, quotas, lottery.as_bytes())?;
    check_seen(rt, seen.status, &seen.out, &seen.err, line);
    Ok(())
}

#[test]
fn sound_lotteries(rt: HostRuntime) -> Result<(), Fail> {
    for case in [
        THREE,
        TWO,
        DEMAND_OF_THREE,
        DEMANDS_OF_TWO,
        SHORT_LIST,
        TWO_PLACES,
        LARGE_PLACES,
        SURE,
    ] {
        check_case(&rt, "audit", case, "")?;
    }
    for case in [HALVES, SIXTHS] {
        check_case(&rt, "audit-matrix", case, "")?;
    }
    // A capped cell with all that it may have is left out as a better place.
    check_change(&rt, "audit", DEMAND_OF_THREE, "price,1,3", "price,1,0", "")?;
    // A worth may be as low as this.
    let low = "worth,x,none,-1099511627776";
    check_change(&rt, "audit", TWO, "worth,x,none,-1", low, "")?;
    Ok(())
}

// One agent, and one object in 1,000 stated sets of this ceiling: of the object itself, and of its one
// cell.
fn thousand_sets(alloc: Global, ceiling: u32) -> Result<String, AllocError> {
    let mut quotas = format!(in alloc; "object,a,,{ceiling}\n")?;
    for number in 2..1001u32 {
        quotas.push_str(&format!(in alloc; "set,S{number},2,,{ceiling}\nin,S{number},x,a\n")?)?;
    }
    Ok(quotas)
}

// A lottery for that problem, in which each price and worth is as great as it may be. The agent has
// these units of the object and of `none`, so its one piece gives it this column.
fn greatest_prices(alloc: Global, units: &str, column: &str) -> Result<String, AllocError> {
    let mut text = format!(in alloc;
        "lottery,1\ndenominator,1\nagents,x\nobjects,a,none\nrow,x,{units}\n"
    )?;
    for number in 1..1001u32 {
        text.push_str(&format!(in alloc; "price,{number},1099511627776\n")?)?;
    }
    text.push_str(&format!(in alloc;
        "worth,x,a,1099511627776\nworth,x,none,-1099511627776\n\
piece,1,1\ngive,x,{column},1\nend,1\n"
    )?)?;
    Ok(text)
}

// The price of the cell is 1,000 times 2^40. To an agent who has the object `none` would be better by
// 998 times 2^40; where the object has no place, to have `none` is best.
#[test]
fn prices_at_their_limit(rt: HostRuntime) -> Result<(), Fail> {
    let alloc = rt.alloc();
    for (ceiling, units, column, line) in [
        (
            1u32,
            "1,0",
            "a",
            "audit failed: 12 1 1 -1098412116148224 2 -1099511627776\n",
        ),
        (0, "0,1", "none", ""),
    ] {
        let quotas = thousand_sets(alloc, ceiling)?;
        let lottery = greatest_prices(alloc, units, column)?;
        let (quotas, lottery) = (quotas.as_bytes(), lottery.as_bytes());
        let seen = run_on_three(alloc, "audit", b"agent\nx,a\n", quotas, lottery)?;
        check_seen(&rt, seen.status, &seen.out, &seen.err, line);
    }
    Ok(())
}

// A case, a part of its lottery, what stands there instead, and the line that is due.
type Change = (Case, &'static str, &'static str, &'static str);

// Changes of one record or two, for each check of `audit`.
const AUDIT_FAULTS: [Change; 20] = [
    (THREE, "price,2,4\n", "", "audit failed: 3 2 1\n"),
    (
        THREE,
        "worth,z,b,4\nworth,z,a,1",
        "worth,z,a,4\nworth,z,b,1",
        "audit failed: 4 3 1\n",
    ),
    (THREE, "row,x,3,1,2", "row,x,3,1,1", "audit failed: 7 1 5\n"),
    (
        SHORT_LIST,
        "row,x,0,1,0",
        "row,x,1,0,0",
        "audit failed: 8 1 1 1\n",
    ),
    (THREE, "row,x,3,1,2", "row,x,4,0,2", "audit failed: 9 1 7\n"),
    (
        TWO_PLACES,
        "row,x,1,2",
        "row,x,2,1",
        "audit failed: 18 1 1 2\n",
    ),
    (
        DEMANDS_OF_TWO,
        "row,p,0,4,2",
        "row,p,4,0,2",
        "audit failed: 8 3 1 4\n",
    ),
    (
        LARGE_PLACES,
        "row,y,4,4,4",
        "row,y,5,3,4",
        "audit failed: 18 2 1 5\n",
    ),
    (
        THREE,
        "worth,z,a,1",
        "worth,z,a,4",
        "audit failed: 10 3 1 4 4\n",
    ),
    (
        THREE,
        "worth,z,none,0",
        "worth,z,none,5",
        "audit failed: 10 3 2 1 5\n",
    ),
    (
        LARGE_PLACES,
        "price,2,0",
        "price,2,7",
        "audit failed: 11 2 7 4\n",
    ),
    (
        THREE,
        "price,1,8\nprice,2,4",
        "price,1,0\nprice,2,0",
        "audit failed: 12 1 2 4 1 8\n",
    ),
    (
        TWO,
        "price,1,4",
        "price,1,1099511627776",
        "audit failed: 12 1 1 -1099511627772 2 0\n",
    ),
    (
        SURE,
        "piece,1,2\ngive,x,a,1\nend,1",
        "piece,1,1\ngive,x,a,1\npiece,2,1\ngive,x,a,1\nend,2",
        "audit failed: 13 2 1\n",
    ),
    (
        THREE,
        "give,y,b,1\ngive,z,none,1",
        "give,y,b,1\ngive,z,a,1",
        "audit failed: 14 1 3 1 1\n",
    ),
    (
        THREE,
        "give,y,b,1\ngive,z,none,1",
        "give,y,a,1\ngive,z,none,1",
        "audit failed: 15 1 1 2\n",
    ),
    (
        THREE,
        "give,z,b,1\nend,4",
        "give,z,b,5\nend,4",
        "audit failed: 14 4 3 2 5\n",
    ),
    (
        THREE,
        "give,z,b,1\nend,4",
        "end,4",
        "audit failed: 15 4 2 0\n",
    ),
    (
        THREE,
        "give,x,none,1\ngive,y,a,1\ngive,z,b,1\nend,4",
        "give,y,a,1\ngive,z,b,1\nend,4",
        "audit failed: 15 4 3 0\n",
    ),
    (
        THREE,
        "piece,3,1\ngive,x,b,1\ngive,y,a,1",
        "piece,3,1\ngive,x,a,1\ngive,y,b,1",
        "audit failed: 16 1 3\n",
    ),
];

#[test]
fn audit_faults(rt: HostRuntime) -> Result<(), Fail> {
    for (case, old, new, line) in AUDIT_FAULTS {
        check_change(&rt, "audit", case, old, new, line)?;
    }
    let first = exchanged(&rt, THREE.lottery, "piece,1,1", "piece,1,2")?;
    let both = exchanged(&rt, first.as_str(), "piece,2,2", "piece,2,1")?;
    let (prefs, quotas) = (THREE.prefs.as_bytes(), THREE.quotas.as_bytes());
    let seen = run_on_three(rt.alloc(), "audit", prefs, quotas, both.as_bytes())?;
    check_seen(
        &rt,
        seen.status,
        &seen.out,
        &seen.err,
        "audit failed: 17 2 2 2 1\n",
    );
    Ok(())
}

// The lottery stays, and the files that it should be for change.
#[test]
fn audits_for_other_files(rt: HostRuntime) -> Result<(), Fail> {
    for (prefs, quotas, line) in [
        (
            "agent\nx,a,b\ny,a,b\nw,b,a\n",
            THREE.quotas,
            "audit failed: 1 3\n",
        ),
        ("agent\nx,a,b\ny,a,b\n", THREE.quotas, "audit failed: 1 3\n"),
        (
            "agent\nx,a,b\ny,a,b\nz,b\n",
            THREE.quotas,
            "audit failed: 4 3 2\n",
        ),
        (
            THREE.prefs,
            "object,b,,1\nobject,a,,1\n",
            "audit failed: 2 1\n",
        ),
        (
            THREE.prefs,
            "object,a,,1\nobject,b,,2\n",
            "audit failed: 11 2 4 6\n",
        ),
        (
            THREE.prefs,
            "object,a,,0\nobject,b,,1\n",
            "audit failed: 9 1 6\n",
        ),
    ] {
        let lottery = THREE.lottery;
        check_case(
            &rt,
            "audit",
            Case {
                prefs,
                quotas,
                lottery,
            },
            line,
        )?;
    }
    // A lottery without prices has no column `none`.
    let (prefs, quotas) = (TWO.prefs, TWO.quotas);
    let plain = Case {
        prefs,
        quotas,
        lottery: PLAIN,
    };
    check_case(&rt, "audit", plain, "audit failed: 2 3\n")?;
    Ok(())
}

// The same for `audit-matrix`.
const MATRIX_FAULTS: [Change; 6] = [
    (
        HALVES,
        "row,x,1,1\n",
        "row,x,2,0\n",
        "audit failed: 6 1 1 1 2\n",
    ),
    (
        SIXTHS,
        "row,y,3,2\n",
        "row,y,4,1\n",
        "audit failed: 6 2 1 3 4\n",
    ),
    (
        HALVES,
        "give,y,b,1",
        "give,y,a,1",
        "audit failed: 15 1 3 2\n",
    ),
    (
        HALVES,
        "give,x,b,1\ngive,y,a,1",
        "give,x,a,1\ngive,y,b,1",
        "audit failed: 16 1 2\n",
    ),
    (
        SIXTHS,
        "give,x,b,1\nend,4",
        "give,x,b,1\ngive,y,a,1\nend,4",
        "audit failed: 16 2 4\n",
    ),
    (
        SIXTHS,
        "piece,2,2\ngive,x,b,1\ngive,y,a,1\npiece,3,2",
        "piece,2,3\ngive,x,b,1\ngive,y,a,1\npiece,3,1",
        "audit failed: 17 2 1 4 3\n",
    ),
];

#[test]
fn audit_matrix_faults(rt: HostRuntime) -> Result<(), Fail> {
    let others = "agent,a,b\nx,1/2,1/2\nz,0.5,1/2\n";
    for (prefs, quotas, line) in [
        (others, "object,a,1,1\n", "audit failed: 1 2\n"),
        (
            "agent,a,c\nx,1/2,1/2\ny,0.5,1/2\n",
            "",
            "audit failed: 2 2\n",
        ),
        (
            "agent,a,b\nx,1/4,3/4\ny,0.5,1/2\n",
            "",
            "audit failed: 5 4 2\n",
        ),
    ] {
        let lottery = HALVES.lottery;
        check_case(
            &rt,
            "audit-matrix",
            Case {
                prefs,
                quotas,
                lottery,
            },
            line,
        )?;
    }
    for (case, old, new, line) in MATRIX_FAULTS {
        check_change(&rt, "audit-matrix", case, old, new, line)?;
    }
    check_several_equal(&rt)?;
    Ok(())
}

// Of the pieces 2, 5 and 7 that give one thing, and 3 and 4 that give another, the least pair is named.
fn check_several_equal(rt: &(impl Abort + AllocGlobal)) -> Result<(), AllocError> {
    let case = Case {
        prefs: "agent,a,b,c,d,e,f,g\nx,1/7,1/7,1/7,1/7,1/7,1/7,1/7\n",
        quotas: "",
        lottery: "lottery,1\ndenominator,7\nagents,x\nobjects,a,b,c,d,e,f,g\nrow,x,1,1,1,1,1,1,1\n\
piece,1,1\ngive,x,a,1\npiece,2,1\ngive,x,b,1\npiece,3,1\ngive,x,c,1\npiece,4,1\ngive,x,c,1\n\
piece,5,1\ngive,x,b,1\npiece,6,1\ngive,x,d,1\npiece,7,1\ngive,x,b,1\nend,7\n",
    };
    check_case(rt, "audit-matrix", case, "audit failed: 16 2 5\n")
}
