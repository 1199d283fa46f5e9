// `envy`: who envies whom in a lottery.
use crate::audit::{Case, DEMANDS_OF_TWO, THREE, TWO};
use crate::runs::run_on_three;
use std::alloc::AllocError;
use std::process::Abort;
use std::test::Fail;

// Two alike agents, of whom one has the object for sure: no eating table, and sound all the same.
const FIRST_COME: Case = Case {
    prefs: "agent\nx,a\ny,a\n",
    quotas: "object,a,,1\n",
    lottery: "lottery,1\ndenominator,1\nagents,x,y\nobjects,a,none\nrow,x,1,0\nrow,y,0,1\n\
price,1,1\nworth,x,a,1\nworth,x,none,0\nworth,y,a,1\nworth,y,none,0\n\
piece,1,1\ngive,x,a,1\ngive,y,none,1\nend,1\n",
};

// Two agents whose lists are only `none`, of demands 1 and 2.
const NONE_ALONE: Case = Case {
    prefs: "agent\nx\ny\n",
    quotas: "object,a,,1\nagent,y,2,2\n",
    lottery: "lottery,1\ndenominator,1\nagents,x,y\nobjects,a,none\nrow,x,0,1\nrow,y,0,2\n\
price,1,0\nworth,x,none,0\nworth,y,none,0\n\
piece,1,1\ngive,x,none,1\ngive,y,none,2\nend,1\n",
};

// The command on the case ends so: with this text, or with this line.
fn check_envy(
    rt: &(impl Abort + AllocGlobal),
    case: Case,
    status: u8,
    out: &str,
    err: &str,
) -> Result<(), AllocError> {
    let (prefs, quotas) = (case.prefs.as_bytes(), case.quotas.as_bytes());
    let seen = run_on_three(rt.alloc(), "envy", prefs, quotas, case.lottery.as_bytes())?;
    assert_eq!(rt; seen.err.as_slice(), err.as_bytes(), "err, not {err}");
    assert_eq!(rt; seen.out.as_slice(), out.as_bytes(), "out, not {out}");
    assert_eq!(rt; seen.status, status, "status, not {out}{err}");
    Ok(())
}

#[test]
fn envy_lists(rt: HostRuntime) -> Result<(), Fail> {
    for (case, out) in [
        (DEMANDS_OF_TWO, "envy,u,v,2,8,12\nenvy,p,v,1,4,6\nend,2\n"),
        // All three are alike, one with another list: so none envies another.
        (THREE, "end,0\n"),
        (TWO, "end,0\n"),
        (FIRST_COME, "envy,y,x,1,0,1\nend,1\n"),
        (NONE_ALONE, "envy,x,y,1,1,2\nend,1\n"),
    ] {
        check_envy(&rt, case, 0, out, "")?;
    }
    Ok(())
}

// Where a check of the audit fails, the last one too, nothing is written.
#[test]
fn envy_after_the_audit(rt: HostRuntime) -> Result<(), Fail> {
    let (prefs, quotas) = (THREE.prefs, THREE.quotas);
    let crossing = "object,a,,1\nobject,b,,1\nset,S,2,,1\nset,T,2,,1\n\
in,S,x,a\nin,S,y,a\nin,T,y,a\nin,T,z,a\n";
    for (prefs, quotas, lottery, status, err) in [
        (
            "agent\nx,a\n",
            quotas,
            "lottery,1\n",
            3,
            "lottery: record 2 kind 7\n",
        ),
        (prefs, crossing, THREE.lottery, 3, "crossing: sets 3 4\n"),
        (prefs, quotas, TWO.lottery, 1, "audit failed: 1 3\n"),
        (
            TWO.prefs,
            TWO.quotas,
            "lottery,1\ndenominator,2\nagents,x,y\nobjects,a,b,none\n\
row,x,1,1,0\nrow,y,1,1,0\nprice,1,4\nprice,2,0\n\
worth,x,a,4\nworth,x,b,0\nworth,x,none,-1\nworth,y,a,4\nworth,y,b,0\nworth,y,none,-1\n\
piece,1,1\ngive,x,a,1\ngive,y,b,1\npiece,2,1\ngive,x,a,1\ngive,y,b,1\nend,2\n",
            1,
            "audit failed: 16 1 2\n",
        ),
    ] {
        let case = Case {
            prefs,
            quotas,
            lottery,
        };
        check_envy(&rt, case, status, "", err)?;
    }
    Ok(())
}
