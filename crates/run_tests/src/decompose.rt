// `decompose`: given shares become a lottery.
use crate::runs::{check_both, check_passes, run_on_both};
use crate::texts::{count_of, has_once, has_pieces};
use alloc_cli::Cause;
use std::alloc::AllocError;
use std::process::Abort;
use std::test::Fail;

// `decompose` refuses the files with this status and line.
fn check_decompose_refused(
    rt: &(impl Abort + AllocGlobal),
    matrix: &str,
    quotas: &str,
    status: u8,
    line: &str,
) -> Result<(), AllocError> {
    check_both(
        rt,
        "decompose",
        matrix.as_bytes(),
        quotas.as_bytes(),
        status,
        "",
        line,
    )
}

// What `decompose` writes. An audit of it passes.
fn decomposed(
    rt: &(impl Abort + AllocGlobal),
    matrix: &str,
    quotas: &str,
) -> Result<Vec<u8>, AllocError> {
    let seen = run_on_both(
        rt.alloc(),
        "decompose",
        matrix.as_bytes(),
        quotas.as_bytes(),
    )?;
    assert_eq!(rt; seen.cause, Cause::Done);
    check_passes(
        rt,
        "audit-matrix",
        matrix.as_bytes(),
        quotas.as_bytes(),
        &seen.out,
    )?;
    Ok(seen.out)
}

#[test]
fn floors_bind(rt: HostRuntime) -> Result<(), Fail> {
    let text = decomposed(
        &rt,
        "agent,a,b\nx,1/2,1/2\ny,0.5,1/2\n",
        "agent,x,1,1\nagent,y,1,1\nobject,a,1,1\nobject,b,1,1\n",
    )?;
    let first: &[u8] = b"lottery,1\ndenominator,2\nagents,x,y\nobjects,a,b\nrow,x,1,1\nrow,y,1,1\n\
piece,1,1\ngive,x,a,1\ngive,y,b,1\npiece,2,1\ngive,x,b,1\ngive,y,a,1\nend,2\n";
    let second: &[u8] = b"lottery,1\ndenominator,2\nagents,x,y\nobjects,a,b\nrow,x,1,1\nrow,y,1,1\n\
piece,1,1\ngive,x,b,1\ngive,y,a,1\npiece,2,1\ngive,x,a,1\ngive,y,b,1\nend,2\n";
    assert!(rt; text.as_slice() == first || text.as_slice() == second);
    Ok(())
}

#[test]
fn mixed_spellings(rt: HostRuntime) -> Result<(), Fail> {
    let text = decomposed(&rt, "agent,a,b,c\nx,0.25,1/3,2\n", "")?;
    assert!(rt;
        text.starts_with(
            b"lottery,1\ndenominator,12\nagents,x\nobjects,a,b,c\nrow,x,3,4,24\npiece,1,"
        )
    );
    assert!(rt; text.ends_with(b"end,3\n"));
    let apart = [
        "3\ngive,x,a,1\ngive,x,c,2\n",
        "4\ngive,x,b,1\ngive,x,c,2\n",
        "5\ngive,x,c,2\n",
    ];
    let together = [
        "3\ngive,x,a,1\ngive,x,b,1\ngive,x,c,2\n",
        "1\ngive,x,b,1\ngive,x,c,2\n",
        "8\ngive,x,c,2\n",
    ];
    let alloc = rt.alloc();
    assert!(rt; has_pieces(alloc, &text, 3, &apart)? || has_pieces(alloc, &text, 3, &together)?);
    Ok(())
}

#[test]
fn infeasible_row(rt: HostRuntime) -> Result<(), Fail> {
    let matrix = "agent,a,b\nx,1/2,1\n";
    check_decompose_refused(&rt, matrix, "agent,x,,1\n", 3, "infeasible: set 1 sum 3\n")?;
    check_decompose_refused(
        &rt,
        "agent,a,b\nx,1/2,1\ny,,\n",
        "agent,x,,1\nset,A,2\nset,B,2\nin,A,x,*\nin,B,*,b\n",
        3,
        "crossing: sets 2 3\n",
    )?;
    Ok(())
}

#[test]
fn scaling_refused(rt: HostRuntime) -> Result<(), Fail> {
    let fine = "agent,a\nx,1/83076749736557242056487941267521537\n";
    let line = "too fine: 83076749736557242056487941267521537\n";
    check_decompose_refused(&rt, fine, "", 5, line)?;
    check_decompose_refused(&rt, fine, "unknown\n", 5, line)?;
    let total = "over total: agent 1 column 2\n";
    check_decompose_refused(&rt, "agent,a,b\nx,1000,1\n", "", 3, total)?;
    check_decompose_refused(&rt, "agent,a,b,c\nx,500,1001/2,1/2\n", "", 3, total)?;
    let later = "agent,a,b,c\nx,1000,1,1/83076749736557242056487941267521537\n";
    check_decompose_refused(&rt, later, "", 5, line)?;
    // The least common multiple of 2^116 and 3^73 is above 2^128.
    let both =
        "agent,a,b\nx,1/83076749736557242056487941267521536,1/67585198634817523235520443624317923\n";
    let greatest = "too fine: 340282366920938463463374607431768211455\n";
    check_decompose_refused(&rt, both, "", 5, greatest)?;
    Ok(())
}

#[test]
fn thirty_equal_shares(rt: HostRuntime) -> Result<(), Fail> {
    let alloc = rt.alloc();
    let mut matrix = String::from_str(alloc, "agent")?;
    for number in 1..31u32 {
        matrix.push_str(&format!(in alloc; ",o{number}")?)?;
    }
    matrix.push_str("\nx")?;
    for _ in 0..30u32 {
        matrix.push_str(",1/30")?;
    }
    matrix.push_str("\n")?;
    let text = decomposed(&rt, &matrix, "agent,x,1,1\n")?;
    assert!(rt; has_once(&text, &["\ndenominator,30\n", "\nend,30\n"]));
    assert_eq!(rt; count_of(&text, "\npiece,"), 30);
    assert_eq!(rt; count_of(&text, "\ngive,"), 30);
    for number in 1..31u32 {
        let piece = format!(in alloc; "\npiece,{number},1\n")?;
        let give = format!(in alloc; "\ngive,x,o{number},1\n")?;
        assert!(rt; has_once(&text, &[&piece, &give]), "{number}");
    }
    Ok(())
}

#[test]
fn shares_and_scaling(rt: HostRuntime) -> Result<(), Fail> {
    let text = decomposed(&rt, "agent,a,b\nx,2/4,\n", "")?;
    assert!(rt;
        has_once(
            &text,
            &[
                "\ndenominator,2\n",
                "\nrow,x,1,0\n",
                ",1\ngive,x,a,1\n",
                "\nend,2\n"
            ],
        )
    );
    let most = decomposed(&rt, "agent,a\nx,1000\n", "")?;
    assert_eq!(rt;
        most.as_slice(),
        b"lottery,1\ndenominator,1\nagents,x\nobjects,a\nrow,x,1000\npiece,1,1\ngive,x,a,1000\nend,1\n".as_slice()
    );
    for share in ["1/0", ".5", "5.", "-1"] {
        let matrix = format!(in rt.alloc(); "agent,a\nx,{share}\n")?;
        check_decompose_refused(&rt, &matrix, "", 3, "input: file 1 record 2 kind 10\n")?;
    }
    Ok(())
}

#[test]
fn floor_above_ceiling(rt: HostRuntime) -> Result<(), Fail> {
    check_decompose_refused(
        &rt,
        "agent,a\nx,0\n",
        "object,a,2,1\n",
        3,
        "input: file 2 record 1 kind 16\n",
    )?;
    Ok(())
}

#[test]
fn no_object_at_all(rt: HostRuntime) -> Result<(), Fail> {
    let text = decomposed(&rt, "agent\nx\n", "")?;
    assert_eq!(rt;
        text.as_slice(),
        b"lottery,1\ndenominator,1\nagents,x\nobjects\nrow,x\npiece,1,1\nend,1\n".as_slice()
    );
    Ok(())
}
