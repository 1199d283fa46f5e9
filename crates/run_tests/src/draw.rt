// `draw`: the piece of the ticket that a seed names.
use crate::runs::{PRICED_THREE, PRICED_TWO, ZEROS, run_on};
use std::alloc::AllocError;
use std::process::Abort;
use std::test::Fail;

// A lottery of one agent and one ticket.
const ONE_TICKET: &str = "lottery,1\ndenominator,1\nagents,x\nobjects,none\nrow,x,1\n\
worth,x,none,0\npiece,1,1\ngive,x,none,1\nend,1\n";

// Seeds whose last byte is 1, or whose bytes are their places.
const ONE: &str = "0000000000000000000000000000000000000000000000000000000000000001";

const RISING: &str = "000102030405060708090a0b0c0d0e0f101112131415161718191a1b1c1d1e1f";

// A seed, a denominator, and the ticket of it that the seed names. An independent program computed them
// from RFC 8439.
const TICKETS: [(&str, &str, &str); 14] = [
    (ZEROS, "2", "0"),
    (ZEROS, "3", "2"),
    (ZEROS, "5", "2"),
    (ZEROS, "6", "5"),
    (ZEROS, "7", "6"),
    (
        ZEROS,
        "70096007590220172985161700444471296",
        "69924542042510173920004150337852093",
    ),
    (
        ZEROS,
        "79228162514264337593543950337",
        "19768527212874827308620923354",
    ),
    (
        ZEROS,
        "41538374868278621028243970633760769",
        "30802833107862423819976666531775338",
    ),
    (
        ZEROS,
        "83076749736557242056487941267521536",
        "70224348985984523983153860465178742",
    ),
    (
        ONE,
        "41538374868278621028243970633760769",
        "24961430992547602093137714488732474",
    ),
    (
        RISING,
        "41538374868278621028243970633760769",
        "25532408237440017377080677636781450",
    ),
    (
        RISING,
        "79228162514264337593543950337",
        "36833238082100443202101968185",
    ),
    (
        RISING,
        "83076749736557242056487941267521536",
        "56399713513292350517133772763954489",
    ),
    (RISING, "2", "1"),
];

// What is written of the last ticket of the lottery of three agents.
const LAST_OF_SIX: &str = "ticket,5,6\npiece,4,2\ngive,x,none,1\ngive,y,a,1\ngive,z,b,1\nend,3\n";

// `draw` by a seed ends with this status, and writes this to each sink.
fn check_draw(
    rt: &(impl Abort + AllocGlobal),
    text: &str,
    seed: &str,
    status: u8,
    out: &str,
    err: &str,
) -> Result<(), AllocError> {
    let words = ["draw", "lottery.csv", seed];
    let seen = run_on(rt.alloc(), &words, text.as_bytes())?;
    assert_eq!(rt; seen.status, status, "status of seed {seed}");
    assert_eq!(rt; seen.out.as_slice(), out.as_bytes(), "out of seed {seed}");
    assert_eq!(rt; seen.err.as_slice(), err.as_bytes(), "err of seed {seed}");
    Ok(())
}

#[test]
fn draw_over_one(rt: HostRuntime) -> Result<(), Fail> {
    let only = "ticket,0,1\npiece,1,1\ngive,x,none,1\nend,1\n";
    for seed in [
        ZEROS,
        RISING,
        "ffffffffffffffffffffffffffffffffffffffffffffffffffffffffffffffff",
    ] {
        check_draw(&rt, ONE_TICKET, seed, 0, only, "")?;
    }
    Ok(())
}

// The stream of the seed of zeros begins with the bytes 76 b8 e0 ad a0 f1 3d 90 40 5d 6a e5 53 86 bd 28, of
// which the last 116 bits are the ticket of 2^116. Of six tickets candidate 0 is 6, which is passed over, and
// candidate 1 is 5. The ticket of 216 times 2^108 is candidate 1, that of 2^96 + 1 candidate 2, and that of
// 2^115 + 1 candidate 3; of the seed 1 it is candidate 4, the first of the second block.
#[test]
fn rejected_candidate(rt: HostRuntime) -> Result<(), Fail> {
    for (seed, denominator, ticket) in TICKETS {
        let text = format!(in rt.alloc();
            "lottery,1\ndenominator,{denominator}\nagents,x\nobjects,none\nrow,x,{denominator}\n\
worth,x,none,0\npiece,1,{denominator}\ngive,x,none,1\nend,1\n"
        )?;
        let drawn = format!(in rt.alloc();
            "ticket,{ticket},{denominator}\npiece,1,{denominator}\ngive,x,none,1\nend,1\n"
        )?;
        check_draw(&rt, &text, seed, 0, &drawn, "")?;
    }
    check_draw(&rt, PRICED_THREE, ZEROS, 0, LAST_OF_SIX, "")?;
    let first = "ticket,0,2\npiece,1,1\ngive,x,a,1\ngive,y,b,1\nend,2\n";
    check_draw(&rt, PRICED_TWO, ZEROS, 0, first, "")?;
    Ok(())
}

// A seed for each ticket of six, and one of which two candidates are passed over.
#[test]
fn boundary_of_tickets(rt: HostRuntime) -> Result<(), Fail> {
    for (seed, drawn) in [
        (
            "0000000000000000000000000000000000000000000000000000000000000013",
            "ticket,0,6\npiece,1,1\ngive,x,a,1\ngive,y,b,1\ngive,z,none,1\nend,3\n",
        ),
        (
            "0000000000000000000000000000000000000000000000000000000000000008",
            "ticket,1,6\npiece,2,2\ngive,x,a,1\ngive,y,none,1\ngive,z,b,1\nend,3\n",
        ),
        (
            "0000000000000000000000000000000000000000000000000000000000000014",
            "ticket,2,6\npiece,2,2\ngive,x,a,1\ngive,y,none,1\ngive,z,b,1\nend,3\n",
        ),
        (
            "0000000000000000000000000000000000000000000000000000000000000005",
            "ticket,3,6\npiece,3,1\ngive,x,b,1\ngive,y,a,1\ngive,z,none,1\nend,3\n",
        ),
        (
            "000000000000000000000000000000000000000000000000000000000000000b",
            "ticket,4,6\npiece,4,2\ngive,x,none,1\ngive,y,a,1\ngive,z,b,1\nend,3\n",
        ),
        (
            "0000000000000000000000000000000000000000000000000000000000000001",
            LAST_OF_SIX,
        ),
        (
            "000000000000000000000000000000000000000000000000000000000000000e",
            "ticket,0,6\npiece,1,1\ngive,x,a,1\ngive,y,b,1\ngive,z,none,1\nend,3\n",
        ),
    ] {
        check_draw(&rt, PRICED_THREE, seed, 0, drawn, "")?;
    }
    Ok(())
}

// A seed is 64 hex digits of either case.
#[test]
fn digits_of_seeds(rt: HostRuntime) -> Result<(), Fail> {
    let drawn = "ticket,0,6\npiece,1,1\ngive,x,a,1\ngive,y,b,1\ngive,z,none,1\nend,3\n";
    for seed in [
        "abababababababababababababababababababababababababababababababab",
        "ABABABABABABABABABABABABABABABABABABABABABABABABABABABABABABABAB",
        "aBABabAbABABABABABABABABABABABABABABABABABABABABABABABABABABABab",
    ] {
        check_draw(&rt, PRICED_THREE, seed, 0, drawn, "")?;
    }
    for seed in [
        "",
        "0",
        "000000000000000000000000000000000000000000000000000000000000000",
        "00000000000000000000000000000000000000000000000000000000000000000",
        "000000000000000000000000000000000000000000000000000000000000000g",
        "G000000000000000000000000000000000000000000000000000000000000000",
        " 000000000000000000000000000000000000000000000000000000000000000",
    ] {
        check_draw(&rt, PRICED_THREE, seed, 2, "", "usage\n")?;
    }
    Ok(())
}

#[test]
fn unlawful_lottery(rt: HostRuntime) -> Result<(), Fail> {
    check_draw(&rt, "", ZEROS, 3, "", "lottery: record 1 kind 7\n")?;
    Ok(())
}
