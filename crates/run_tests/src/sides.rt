// `sides` and `decompose-free`: sides for sets that cross, or an odd ring of them.
use crate::cases::check_each_refused;
use crate::runs::{check_both, check_passes, run_on_both};
use crate::texts::{count_of, has_pieces};
use alloc_cli::Cause;
use std::alloc::{AllocError, Global};
use std::process::Abort;
use std::test::Fail;

// Three agents without shares of one object.
const THREE: &[u8] = b"agent,a\nx,0\ny,0\nz,0\n";

// Three sets, of which each crosses the two others.
const RING_OF_THREE: &[u8] = b"set,A,1\nset,B,1\nset,C,1\nin,A,x,a\nin,A,y,a\nin,B,y,a\nin,B,z,a\n\
in,C,x,a\nin,C,z,a\n";

// Two sets of one side that cross, and one that contains both.
const SPLIT_OF_THREE: &[u8] =
    b"set,A,1\nset,B,1\nin,A,x,a\nin,A,y,a\nin,B,y,a\nin,B,z,a\nobject,a\n";

// A matrix without shares over agents p0, p1, .. and the objects a and b.
fn empty_matrix(alloc: Global, agents: u32) -> Result<Vec<u8>, AllocError> {
    let mut matrix = b"agent,a,b\n".to_vec(alloc)?;
    for agent in 0..agents {
        matrix.extend_from_slice(format!(in alloc; "p{agent},0,0\n")?.as_bytes())?;
    }
    Ok(matrix)
}

// A set of side 1 over two cells of these agents and of object a.
fn add_pair(
    alloc: Global,
    quotas: &mut Vec<u8>,
    name: &str,
    one: u32,
    other: u32,
) -> Result<(), AllocError> {
    let records = format!(in alloc; "set,{name},1\nin,{name},p{one},a\nin,{name},p{other},a\n")?;
    quotas.extend_from_slice(records.as_bytes())?;
    Ok(())
}

// `sides` writes this.
fn check_sides(
    rt: &(impl Abort + AllocGlobal),
    matrix: &[u8],
    quotas: &[u8],
    out: &str,
) -> Result<(), AllocError> {
    check_both(rt, "sides", matrix, quotas, 0, out, "")
}

// `sides` writes the ring of these pairs of neighbours, begun at any of its sets and gone round either
// way: all pairs but one stand next to each other.
fn check_ring(
    rt: &(impl Abort + AllocGlobal),
    matrix: &[u8],
    quotas: &[u8],
    pairs: &[(u32, u32)],
) -> Result<(), AllocError> {
    let alloc = rt.alloc();
    let seen = run_on_both(alloc, "sides", matrix, quotas)?;
    assert_eq!(rt; seen.cause, Cause::Done);
    let count = pairs.len();
    let head = format!(in alloc; "ring,{count}\n")?;
    let end = format!(in alloc; "end,{count}\n")?;
    assert!(rt; seen.out.starts_with(head.as_bytes()));
    assert!(rt; seen.out.ends_with(end.as_bytes()));
    assert_eq!(rt; count_of(&seen.out, "\nset,"), count);
    let mut together = 1usize;
    for (one, other) in pairs {
        let alone = format!(in alloc; "\nset,{one}\n")?;
        assert_eq!(rt; count_of(&seen.out, &alone), 1);
        let forth = format!(in alloc; "set,{one}\nset,{other}\n")?;
        let back = format!(in alloc; "set,{other}\nset,{one}\n")?;
        together = together.wrapping_add(count_of(&seen.out, &forth));
        together = together.wrapping_add(count_of(&seen.out, &back));
    }
    assert_eq!(rt; together, count);
    Ok(())
}

#[test]
fn odd_ring_of_three(rt: HostRuntime) -> Result<(), Fail> {
    check_ring(&rt, THREE, RING_OF_THREE, &[(1, 2), (2, 3), (3, 1)])?;
    check_each_refused(
        &rt,
        "decompose-free",
        &[
            (THREE, RING_OF_THREE, "no sides\n"),
            (b"agent,a\nx,1\ny,1\nz,1\n", RING_OF_THREE, "no sides\n"),
        ],
    )?;
    Ok(())
}

#[test]
fn split_of_three(rt: HostRuntime) -> Result<(), Fail> {
    check_sides(
        &rt,
        THREE,
        SPLIT_OF_THREE,
        "side,1,1\nside,2,2\nside,3,1\nend,3\n",
    )?;
    check_each_refused(
        &rt,
        "decompose",
        &[(THREE, SPLIT_OF_THREE, "crossing: sets 1 2\n")],
    )?;
    check_both(
        &rt,
        "decompose-free",
        THREE,
        SPLIT_OF_THREE,
        0,
        "lottery,1\ndenominator,1\nagents,x,y,z\nobjects,a\nrow,x,0\nrow,y,0\nrow,z,0\n\
piece,1,1\nend,1\n",
        "",
    )?;
    Ok(())
}

// Sets that cross on one side keep their quotas in every piece; under the sides that were found the
// audit passes.
#[test]
fn quotas_of_crossing_sets_kept(rt: HostRuntime) -> Result<(), Fail> {
    let matrix: &[u8] = b"agent,a\nx,1/2\ny,1/2\nz,1/2\n";
    let members = "in,A,x,a\nin,A,y,a\nin,B,y,a\nin,B,z,a\n";
    let alloc = rt.alloc();
    let stated = format!(in alloc; "set,A,1,1,1\nset,B,1,1,1\n{members}")?;
    let found = format!(in alloc; "set,A,1,1,1\nset,B,2,1,1\n{members}")?;
    let seen = run_on_both(alloc, "decompose-free", matrix, stated.as_bytes())?;
    assert_eq!(rt; seen.cause, Cause::Done);
    assert!(rt;
        has_pieces(
            alloc,
            &seen.out,
            2,
            &["1\ngive,y,a,1\n", "1\ngive,x,a,1\ngive,z,a,1\n"],
        )?
    );
    assert_eq!(rt; count_of(&seen.out, "\npiece,"), 2);
    check_passes(&rt, "audit-matrix", matrix, found.as_bytes(), &seen.out)?;
    Ok(())
}

#[test]
fn parts_with_sides_of_their_own(rt: HostRuntime) -> Result<(), Fail> {
    let alloc = rt.alloc();
    let matrix = empty_matrix(alloc, 6)?;
    let mut quotas = Vec::new(alloc);
    for (name, one, other) in [("A", 0, 1), ("B", 3, 4), ("C", 4, 5), ("D", 1, 2)] {
        add_pair(alloc, &mut quotas, name, one, other)?;
    }
    check_sides(
        &rt,
        &matrix,
        &quotas,
        "side,1,1\nside,2,1\nside,3,2\nside,4,2\nend,4\n",
    )?;
    Ok(())
}

#[test]
fn equal_and_empty_sets(rt: HostRuntime) -> Result<(), Fail> {
    check_sides(
        &rt,
        THREE,
        b"set,A,2\nset,B,2\nset,E,2\nset,F,1\nin,A,x,a\nin,A,y,a\nin,B,x,a\nin,B,y,a\n",
        "side,1,1\nside,2,1\nside,3,1\nside,4,1\nend,4\n",
    )?;
    check_sides(&rt, THREE, b"", "end,0\n")?;
    Ok(())
}

#[test]
fn ring_of_five_in_a_larger_graph(rt: HostRuntime) -> Result<(), Fail> {
    let alloc = rt.alloc();
    let matrix = empty_matrix(alloc, 13)?;
    let mut quotas = Vec::new(alloc);
    let pairs = [
        ("Square1", 0, 1),
        ("Square2", 1, 2),
        ("Square3", 2, 3),
        ("Square4", 3, 0),
        ("Ring1", 4, 5),
        ("Ring2", 5, 6),
        ("Ring3", 6, 7),
        ("Ring4", 7, 8),
        ("Ring5", 8, 4),
        ("Tail", 9, 10),
        ("Apart", 11, 12),
    ];
    for (name, one, other) in pairs {
        add_pair(alloc, &mut quotas, name, one, other)?;
    }
    // The link crosses a set of the square and one of the ring, the tail another of the ring.
    quotas.extend_from_slice(
        b"set,Link,2\nin,Link,p2,b\nin,Link,p4,b\nin,Square3,p2,b\nin,Ring1,p4,b\n\
in,Tail,p6,b\nin,Ring2,p6,b\nagent,p12\n",
    )?;
    check_ring(
        &rt,
        &matrix,
        &quotas,
        &[(5, 6), (6, 7), (7, 8), (8, 9), (9, 5)],
    )?;
    check_each_refused(
        &rt,
        "decompose-free",
        &[(matrix.as_slice(), quotas.as_slice(), "no sides\n")],
    )?;
    Ok(())
}

#[test]
fn thousand_sets_in_a_chain(rt: HostRuntime) -> Result<(), Fail> {
    let alloc = rt.alloc();
    let matrix = empty_matrix(alloc, 501)?;
    let (mut quotas, mut sides) = (Vec::new(alloc), String::new(alloc));
    for number in 1..=1000u32 {
        let next = number.wrapping_add(1);
        let (one, other) = (number / 2, next / 2);
        let (at, then) = if number % 2 == 0 {
            ("a", "b")
        } else {
            ("b", "a")
        };
        let records = format!(in alloc;
            "set,S{number},2\nin,S{number},p{one},{at}\nin,S{number},p{other},{then}\n"
        )?;
        quotas.extend_from_slice(records.as_bytes())?;
        let side = 2u32.wrapping_sub(number % 2);
        sides.push_str(&format!(in alloc; "side,{number},{side}\n")?)?;
    }
    sides.push_str("end,1000\n")?;
    check_sides(&rt, &matrix, &quotas, &sides)?;
    let seen = run_on_both(alloc, "decompose-free", &matrix, &quotas)?;
    assert_eq!(rt; seen.cause, Cause::Done);
    assert!(rt; seen.out.ends_with(b"\npiece,1,1\nend,1\n"));
    Ok(())
}

#[test]
fn causes_in_their_order(rt: HostRuntime) -> Result<(), Fail> {
    let fine: &[u8] = b"agent,a\nx,1/83076749736557242056487941267521537\n";
    let over: &[u8] = b"agent,a,b\nx,1000,1\n";
    check_sides(&rt, fine, b"object,a\n", "side,1,1\nend,1\n")?;
    check_sides(&rt, over, b"object,a\n", "side,1,1\nend,1\n")?;
    check_each_refused(
        &rt,
        "sides",
        &[
            (
                b"agent,a\nx,-1\n",
                b"unknown\n",
                "input: file 1 record 2 kind 10\n",
            ),
            (fine, b"unknown\n", "input: file 2 record 1 kind 8\n"),
        ],
    )?;
    check_each_refused(
        &rt,
        "decompose-free",
        &[
            (
                b"agent,a\nx,-1\n",
                b"unknown\n",
                "input: file 1 record 2 kind 10\n",
            ),
            (over, b"unknown\n", "over total: agent 1 column 2\n"),
            (THREE, b"unknown\n", "input: file 2 record 1 kind 8\n"),
            (THREE, b"object,a,1\n", "infeasible: set 1 sum 0\n"),
        ],
    )?;
    check_both(
        &rt,
        "decompose-free",
        fine,
        b"unknown\n",
        5,
        "",
        "too fine: 83076749736557242056487941267521537\n",
    )?;
    Ok(())
}
