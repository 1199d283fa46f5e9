// `table`: what is eaten in a problem.
use crate::cases::{
    Case, ENVY_BETWEEN_DEMANDS_OF_TWO, EQUAL_AND_EMPTY_SETS, FULL_AT_THE_END,
    MOMENT_ZERO_IS_RANKED, SET_FULL_BEFORE_ITS_COLUMN, TIED_MOMENT, UNEATEN_PLACE, chain_of,
};
use crate::runs::{check_both, run_on_both};
use crate::texts::has_record;
use alloc_cli::Cause;
use std::alloc::AllocError;
use std::process::Abort;
use std::test::Fail;

// `table` on these files writes this.
fn check_table(rt: &(impl Abort + AllocGlobal), case: &Case, out: &str) -> Result<(), AllocError> {
    check_both(rt, "table", case.prefs, case.quotas, 0, out, "")
}

#[test]
fn full_at_the_end(rt: HostRuntime) -> Result<(), Fail> {
    check_table(
        &rt,
        &FULL_AT_THE_END,
        "table,1\ndenominator,2\nobjects,a,b,none\nmoment,1,1\nmoment,2,2\nrow,x,1,1,0\nrow,y,1,1,0\nend,2\n",
    )?;
    Ok(())
}

#[test]
fn uneaten_place(rt: HostRuntime) -> Result<(), Fail> {
    check_table(
        &rt,
        &UNEATEN_PLACE,
        "table,1\ndenominator,6\nobjects,a,b,none\nmoment,1,3\nmoment,2,4\n\
row,x,3,1,2\nrow,y,3,1,2\nrow,z,0,4,2\nend,3\n",
    )?;
    Ok(())
}

#[test]
fn tied_moment(rt: HostRuntime) -> Result<(), Fail> {
    check_table(
        &rt,
        &TIED_MOMENT,
        "table,1\ndenominator,2\nobjects,a,b,c,d,none\nmoment,1,1\nmoment,2,1\nmoment,3,2\nmoment,4,2\n\
row,1,1,0,1,0,0\nrow,2,1,0,1,0,0\nrow,3,0,1,0,1,0\nrow,4,0,1,0,1,0\nend,4\n",
    )?;
    Ok(())
}

#[test]
fn set_full_before_its_column(rt: HostRuntime) -> Result<(), Fail> {
    check_table(
        &rt,
        &SET_FULL_BEFORE_ITS_COLUMN,
        "table,1\ndenominator,2\nobjects,a,b,none\nmoment,1,2\nmoment,2,2\nmoment,3,1\n\
row,x,1,1,0\nrow,y,1,1,0\nrow,z,2,0,0\nend,3\n",
    )?;
    Ok(())
}

#[test]
fn moment_zero_is_ranked(rt: HostRuntime) -> Result<(), Fail> {
    check_table(
        &rt,
        &MOMENT_ZERO_IS_RANKED,
        "table,1\ndenominator,2\nobjects,a,b,none\nmoment,1,0\nmoment,2,1\nrow,x,0,1,1\nrow,y,0,1,1\nend,2\n",
    )?;
    Ok(())
}

#[test]
fn equal_and_empty_sets(rt: HostRuntime) -> Result<(), Fail> {
    check_table(
        &rt,
        &EQUAL_AND_EMPTY_SETS,
        "table,1\ndenominator,2\nobjects,a,b,none\nmoment,1,2\nmoment,2,2\nmoment,3,1\nmoment,4,2\nmoment,5,0\n\
row,x,1,1,0\nrow,y,1,1,0\nrow,z,2,0,0\nend,3\n",
    )?;
    Ok(())
}

#[test]
fn envy_between_demands_of_two(rt: HostRuntime) -> Result<(), Fail> {
    check_table(
        &rt,
        &ENVY_BETWEEN_DEMANDS_OF_TWO,
        "table,1\ndenominator,6\nobjects,a,b,none\nmoment,1,6\nmoment,2,4\n\
row,u,6,2,4\nrow,v,6,6,0\nrow,p,0,4,2\nend,3\n",
    )?;
    Ok(())
}

#[test]
fn largest_denominator(rt: HostRuntime) -> Result<(), Fail> {
    let (prefs, quotas) = chain_of(rt.alloc(), &["x", "y"], 73)?;
    let seen = run_on_both(rt.alloc(), "table", &prefs, &quotas)?;
    assert_eq!(rt; seen.cause, Cause::Done);
    for record in [
        "denominator,67585198634817523235520443624317923",
        "moment,1,22528399544939174411840147874772641",
        "moment,73,67585198634808078502554704333890531",
        "end,75",
    ] {
        assert!(rt; has_record(&seen.out, record), "{record}");
    }
    Ok(())
}

#[test]
fn one_too_fine(rt: HostRuntime) -> Result<(), Fail> {
    let (prefs, quotas) = chain_of(rt.alloc(), &["x", "y"], 74)?;
    check_both(
        &rt,
        "table",
        &prefs,
        &quotas,
        5,
        "",
        "too fine: 202755595904452569706561330872953769\n",
    )?;
    Ok(())
}
