// `solve`: preference lists and quotas become a lottery.
use crate::cases::{
    AS_A_SPREADSHEET_WRITES_IT, Case, ENVY_BETWEEN_DEMANDS_OF_TWO, EQUAL_AND_EMPTY_SETS,
    FULL_AT_THE_END, LEAST_CROSSING_PAIR, MOMENT_ZERO_IS_RANKED, SET_FULL_BEFORE_ITS_COLUMN,
    TIED_MOMENT, UNEATEN_PLACE, chain_of, check_each_refused, check_input_faults,
};
use crate::runs::{ZEROS, check_both, check_passes, run_on, run_on_both};
use crate::texts::{count_of, has_pieces, has_record};
use alloc_cli::Cause;
use std::alloc::AllocError;
use std::process::Abort;
use std::test::Fail;

// What a lottery is to be: its records before the pieces, and the pieces in any order, each as its
// weight and its gives.
#[derive(Clone, Copy)]
struct Expected {
    head: &'static str,
    pieces: &'static [&'static str],
}

// What `solve` writes. An audit of it passes.
fn solved(
    rt: &(impl Abort + AllocGlobal),
    prefs: &[u8],
    quotas: &[u8],
) -> Result<Vec<u8>, AllocError> {
    let seen = run_on_both(rt.alloc(), "solve", prefs, quotas)?;
    assert_eq!(rt; seen.cause, Cause::Done);
    assert_eq!(rt; seen.status, 0);
    assert!(rt; seen.err.is_empty());
    check_passes(rt, "audit", prefs, quotas, &seen.out)?;
    Ok(seen.out)
}

// `solve` writes this lottery: its head, these pieces by some numbers from 1 on, and its end.
fn check_solved(
    rt: &(impl Abort + AllocGlobal),
    case: &Case,
    expected: &Expected,
) -> Result<(), AllocError> {
    let alloc = rt.alloc();
    let text = solved(rt, case.prefs, case.quotas)?;
    let pieces = expected.pieces;
    let end = format!(in alloc; "end,{}\n", pieces.len())?;
    let mut size = expected.head.len().wrapping_add(end.len());
    for piece in pieces {
        size = size
            .wrapping_add(piece.len())
            .wrapping_add("piece,1,".len());
    }
    assert!(rt; text.starts_with(expected.head.as_bytes()));
    assert!(rt; text.ends_with(end.as_bytes()));
    assert!(rt; has_pieces(alloc, &text, pieces.len(), pieces)?);
    assert_eq!(rt; text.len(), size);
    Ok(())
}

#[test]
fn empty_problem(rt: HostRuntime) -> Result<(), Fail> {
    check_both(
        &rt,
        "solve",
        b"agent\nx\n",
        b"",
        0,
        "lottery,1\ndenominator,1\nagents,x\nobjects,none\nrow,x,1\nworth,x,none,0\n\
piece,1,1\ngive,x,none,1\nend,1\n",
        "",
    )?;
    solved(&rt, b"agent\nx\n", b"")?;
    Ok(())
}

const FULL_AT_THE_END_SOLVED: Expected = Expected {
    head: "lottery,1\ndenominator,2\nagents,x,y\nobjects,a,b,none\nrow,x,1,1,0\nrow,y,1,1,0\n\
price,1,4\nprice,2,0\nworth,x,a,4\nworth,x,b,0\nworth,x,none,-1\n\
worth,y,a,4\nworth,y,b,0\nworth,y,none,-1\n",
    pieces: &["1\ngive,x,a,1\ngive,y,b,1\n", "1\ngive,x,b,1\ngive,y,a,1\n"],
};

const UNEATEN_PLACE_SOLVED: Expected = Expected {
    head: "lottery,1\ndenominator,6\nagents,x,y,z\nobjects,a,b,none\n\
row,x,3,1,2\nrow,y,3,1,2\nrow,z,0,4,2\nprice,1,8\nprice,2,4\n\
worth,x,a,8\nworth,x,b,4\nworth,x,none,0\nworth,y,a,8\nworth,y,b,4\nworth,y,none,0\n\
worth,z,b,4\nworth,z,a,1\nworth,z,none,0\n",
    pieces: &[
        "1\ngive,x,a,1\ngive,y,b,1\ngive,z,none,1\n",
        "2\ngive,x,a,1\ngive,y,none,1\ngive,z,b,1\n",
        "1\ngive,x,b,1\ngive,y,a,1\ngive,z,none,1\n",
        "2\ngive,x,none,1\ngive,y,a,1\ngive,z,b,1\n",
    ],
};

const SET_FULL_BEFORE_ITS_COLUMN_SOLVED: Expected = Expected {
    head: "lottery,1\ndenominator,2\nagents,x,y,z\nobjects,a,b,none\n\
row,x,1,1,0\nrow,y,1,1,0\nrow,z,2,0,0\nprice,1,0\nprice,2,0\nprice,3,4\n\
worth,x,a,4\nworth,x,b,0\nworth,x,none,-1\nworth,y,a,4\nworth,y,b,0\nworth,y,none,-1\n\
worth,z,a,0\nworth,z,none,-1\n",
    pieces: &[
        "1\ngive,x,a,1\ngive,y,b,1\ngive,z,a,1\n",
        "1\ngive,x,b,1\ngive,y,a,1\ngive,z,a,1\n",
    ],
};

const MOMENT_ZERO_IS_RANKED_SOLVED: Expected = Expected {
    head: "lottery,1\ndenominator,2\nagents,x,y\nobjects,a,b,none\nrow,x,0,1,1\nrow,y,0,1,1\n\
price,1,8\nprice,2,4\nworth,x,a,5\nworth,x,b,4\nworth,x,none,0\n\
worth,y,a,5\nworth,y,b,4\nworth,y,none,0\n",
    pieces: &[
        "1\ngive,x,b,1\ngive,y,none,1\n",
        "1\ngive,x,none,1\ngive,y,b,1\n",
    ],
};

const EQUAL_AND_EMPTY_SETS_SOLVED: Expected = Expected {
    head: "lottery,1\ndenominator,2\nagents,x,y,z\nobjects,a,b,none\n\
row,x,1,1,0\nrow,y,1,1,0\nrow,z,2,0,0\n\
price,1,0\nprice,2,0\nprice,3,4\nprice,4,0\nprice,5,8\n\
worth,x,a,4\nworth,x,b,0\nworth,x,none,-1\nworth,y,a,4\nworth,y,b,0\nworth,y,none,-1\n\
worth,z,a,0\nworth,z,none,-1\n",
    pieces: &[
        "1\ngive,x,a,1\ngive,y,b,1\ngive,z,a,1\n",
        "1\ngive,x,b,1\ngive,y,a,1\ngive,z,a,1\n",
    ],
};

const ENVY_BETWEEN_DEMANDS_OF_TWO_SOLVED: Expected = Expected {
    head: "lottery,1\ndenominator,6\nagents,u,v,p\nobjects,a,b,none\n\
row,u,6,2,4\nrow,v,6,6,0\nrow,p,0,4,2\nprice,1,0\nprice,2,4\n\
worth,u,a,8\nworth,u,b,4\nworth,u,none,0\nworth,v,b,8\nworth,v,a,0\nworth,v,none,-1\n\
worth,p,b,4\nworth,p,none,0\n",
    pieces: &[
        "2\ngive,u,a,1\ngive,u,b,1\ngive,v,a,1\ngive,v,b,1\ngive,p,none,1\n",
        "4\ngive,u,a,1\ngive,u,none,1\ngive,v,a,1\ngive,v,b,1\ngive,p,b,1\n",
    ],
};

const DEMAND_BEYOND_THE_OBJECTS: Case = Case {
    prefs: b"agent\nx,a\n",
    quotas: b"object,a,,1\nagent,x,3,3\n",
};

const DEMAND_BEYOND_THE_OBJECTS_SOLVED: Expected = Expected {
    head: "lottery,1\ndenominator,3\nagents,x\nobjects,a,none\nrow,x,3,6\n\
price,1,3\nworth,x,a,3\nworth,x,none,0\n",
    pieces: &["3\ngive,x,a,1\ngive,x,none,2\n"],
};

const AS_A_SPREADSHEET_WRITES_IT_SOLVED: Expected = Expected {
    head: "lottery,1\ndenominator,2\nagents,\"Lee, Ada\",\"O\"\"Dea, Jo\"\n\
objects,North,South,none\nrow,\"Lee, Ada\",1,1,0\nrow,\"O\"\"Dea, Jo\",1,1,0\n\
price,1,4\nprice,2,0\n\
worth,\"Lee, Ada\",North,4\nworth,\"Lee, Ada\",South,0\nworth,\"Lee, Ada\",none,-1\n\
worth,\"O\"\"Dea, Jo\",North,4\nworth,\"O\"\"Dea, Jo\",South,0\nworth,\"O\"\"Dea, Jo\",none,-1\n",
    pieces: &[
        "1\ngive,\"Lee, Ada\",North,1\ngive,\"O\"\"Dea, Jo\",South,1\n",
        "1\ngive,\"Lee, Ada\",South,1\ngive,\"O\"\"Dea, Jo\",North,1\n",
    ],
};

// Cases of which the lottery is known but for the order of its pieces.
#[test]
fn known_lotteries(rt: HostRuntime) -> Result<(), Fail> {
    let cases = [
        (FULL_AT_THE_END, FULL_AT_THE_END_SOLVED),
        (UNEATEN_PLACE, UNEATEN_PLACE_SOLVED),
        (
            SET_FULL_BEFORE_ITS_COLUMN,
            SET_FULL_BEFORE_ITS_COLUMN_SOLVED,
        ),
        (MOMENT_ZERO_IS_RANKED, MOMENT_ZERO_IS_RANKED_SOLVED),
        (EQUAL_AND_EMPTY_SETS, EQUAL_AND_EMPTY_SETS_SOLVED),
        (
            ENVY_BETWEEN_DEMANDS_OF_TWO,
            ENVY_BETWEEN_DEMANDS_OF_TWO_SOLVED,
        ),
        (DEMAND_BEYOND_THE_OBJECTS, DEMAND_BEYOND_THE_OBJECTS_SOLVED),
        (
            AS_A_SPREADSHEET_WRITES_IT,
            AS_A_SPREADSHEET_WRITES_IT_SOLVED,
        ),
    ];
    for (case, expected) in &cases {
        check_solved(&rt, case, expected)?;
    }
    Ok(())
}

// Its pieces aren't known: each of both tickets gives each agent one object and each object once.
#[test]
fn tied_moment(rt: HostRuntime) -> Result<(), Fail> {
    let alloc = rt.alloc();
    let text = solved(&rt, TIED_MOMENT.prefs, TIED_MOMENT.quotas)?;
    assert!(rt;
        text.starts_with(
            b"lottery,1\ndenominator,2\nagents,1,2,3,4\nobjects,a,b,c,d,none\n\
row,1,1,0,1,0,0\nrow,2,1,0,1,0,0\nrow,3,0,1,0,1,0\nrow,4,0,1,0,1,0\n\
price,1,6\nprice,2,6\nprice,3,0\nprice,4,0\n\
worth,1,a,6\nworth,1,b,1\nworth,1,c,0\nworth,1,d,-1\nworth,1,none,-2\n"
        )
    );
    let mut drawn = Vec::new(alloc);
    for ticket in ["0", "1"] {
        let picked = run_on(alloc, &["pick", "lottery.csv", ticket], &text)?.out;
        for part in [
            "\ngive,1,",
            "\ngive,2,",
            "\ngive,3,",
            "\ngive,4,",
            ",a,1\n",
            ",b,1\n",
            ",c,1\n",
            ",d,1\n",
        ] {
            assert_eq!(rt; count_of(&picked, part), 1, "{part} at {ticket}");
        }
        drawn.extend_from_slice(&picked)?;
    }
    for give in [
        "give,1,a,1",
        "give,1,c,1",
        "give,2,a,1",
        "give,2,c,1",
        "give,3,b,1",
        "give,3,d,1",
        "give,4,b,1",
        "give,4,d,1",
    ] {
        assert_eq!(rt; count_of(&drawn, give), 1, "{give}");
    }
    Ok(())
}

#[test]
fn largest_denominator(rt: HostRuntime) -> Result<(), Fail> {
    let alloc = rt.alloc();
    let (prefs, quotas) = chain_of(alloc, &["x", "y"], 73)?;
    let text = solved(&rt, &prefs, &quotas)?;
    assert!(rt; has_record(&text, "denominator,67585198634817523235520443624317923"));
    let last = "67585198634817523235520443624317922";
    let picked = run_on(alloc, &["pick", "lottery.csv", last], &text)?;
    assert_eq!(rt; picked.cause, Cause::Done);
    let past = "67585198634817523235520443624317923";
    let refused = run_on(alloc, &["pick", "lottery.csv", past], &text)?;
    assert_eq!(rt; refused.status, 3);
    Ok(())
}

// One agent who lists 116 objects: each next one is full when half of the time that was left is over.
#[test]
fn denominator_at_the_limit(rt: HostRuntime) -> Result<(), Fail> {
    let alloc = rt.alloc();
    let (prefs, quotas) = chain_of(alloc, &["x"], 116)?;
    let text = solved(&rt, &prefs, &quotas)?;
    assert!(rt; has_record(&text, "denominator,83076749736557242056487941267521536"));
    let summary = run_on(alloc, &["report", "lottery.csv"], &text)?;
    let front =
        b"{\"agents\":117,\"columns\":117,\"denominator\":\"83076749736557242056487941267521536\",";
    assert!(rt; summary.out.starts_with(front));
    let drawn = run_on(alloc, &["draw", "lottery.csv", ZEROS], &text)?;
    let front = b"ticket,70224348985984523983153860465178742,83076749736557242056487941267521536\n";
    assert!(rt; drawn.out.starts_with(front));
    let (prefs, quotas) = chain_of(alloc, &["x"], 117)?;
    let line = "too fine: 166153499473114484112975882535043072\n";
    check_both(&rt, "solve", &prefs, &quotas, 5, "", line)?;
    Ok(())
}

#[test]
fn one_too_fine(rt: HostRuntime) -> Result<(), Fail> {
    let (prefs, quotas) = chain_of(rt.alloc(), &["x", "y"], 74)?;
    let line = "too fine: 202755595904452569706561330872953769\n";
    check_both(&rt, "solve", &prefs, &quotas, 5, "", line)?;
    Ok(())
}

#[test]
fn refused_problems(rt: HostRuntime) -> Result<(), Fail> {
    let sheet = AS_A_SPREADSHEET_WRITES_IT;
    let mut more = sheet.prefs.to_vec(rt.alloc())?;
    more.extend_from_slice(b"Kim,East\r\n")?;
    check_each_refused(
        &rt,
        "solve",
        &[
            (
                LEAST_CROSSING_PAIR.prefs,
                LEAST_CROSSING_PAIR.quotas,
                "crossing: sets 2 3\n",
            ),
            (&more, sheet.quotas, "input: file 1 record 5 kind 5\n"),
        ],
    )?;
    check_input_faults(&rt, "solve")?;
    Ok(())
}

#[test]
fn demand_records(rt: HostRuntime) -> Result<(), Fail> {
    let prefs: &[u8] = b"agent\nu,a\nv,a\n";
    check_each_refused(
        &rt,
        "solve",
        &[
            (
                prefs,
                b"object,a,,1\nagent,u,1,2\n",
                "input: file 2 record 2 kind 19\n",
            ),
            (
                prefs,
                b"object,a,,1\nagent,u,0,0\n",
                "input: file 2 record 2 kind 19\n",
            ),
            (
                prefs,
                b"object,a,,1\nagent,u,1001,1001\n",
                "input: file 2 record 2 kind 17\n",
            ),
            (
                prefs,
                b"object,a,,1\nagent,u,1000,1000\n",
                "input: file 2 record 2 kind 17\n",
            ),
            (
                prefs,
                b"object,a,,1\nagent,u,2,2\nagent,u,2,2\n",
                "input: file 2 record 3 kind 11\n",
            ),
        ],
    )?;
    Ok(())
}
