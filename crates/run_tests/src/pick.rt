// `pick`: the piece of a ticket.
use crate::runs::{PLAIN, PRICED_THREE, PRICED_TWO, Seen, one_file, run_on, words_of};
use alloc_cli::{Cause, run};
use device_core::{MemoryFiles, MemorySink};
use std::alloc::{AllocError, Global};
use std::process::Abort;
use std::test::Fail;

// A run over devices in memory of which any call could fail, and none does.
fn run_in_memory(alloc: Global, words: &[&str], bytes: &[u8]) -> Result<Seen, AllocError> {
    let words = words_of(alloc, words)?;
    let mut files = MemoryFiles::new(one_file(alloc, bytes)?, Vec::new(alloc));
    let mut out = MemorySink::new(alloc, Vec::new(alloc));
    let mut err = MemorySink::new(alloc, Vec::new(alloc));
    let ended = run(alloc, &words, &mut files, &mut out, &mut err);
    Ok(Seen {
        status: ended.status,
        cause: ended.cause,
        out: out.bytes().to_vec(alloc)?,
        err: err.bytes().to_vec(alloc)?,
    })
}

// A run of `pick` ended with this status, and wrote this to each sink.
fn check_seen(
    rt: &(impl Abort + AllocGlobal),
    seen: &Seen,
    ticket: &str,
    status: u8,
    out: &str,
    err: &str,
) {
    assert_eq!(rt;
        seen.status,
        status,
        "status of ticket {ticket}, not {out}{err}"
    );
    assert_eq!(rt;
        seen.out.as_slice(),
        out.as_bytes(),
        "out of ticket {ticket}, not {out}"
    );
    assert_eq!(rt;
        seen.err.as_slice(),
        err.as_bytes(),
        "err of ticket {ticket}, not {err}"
    );
}

// `pick` of a ticket ends with this status, and writes this to each sink, over either kind of
// devices.
fn check_pick(
    rt: &(impl Abort + AllocGlobal),
    text: &[u8],
    ticket: &str,
    status: u8,
    out: &str,
    err: &str,
) -> Result<(), AllocError> {
    let words = ["pick", "lottery.csv", ticket];
    let sure = run_on(rt.alloc(), &words, text)?;
    check_seen(rt, &sure, ticket, status, out, err);
    let in_memory = run_in_memory(rt.alloc(), &words, text)?;
    check_seen(rt, &in_memory, ticket, status, out, err);
    Ok(())
}

// The text with another record of this number, counted from 1, or without it.
fn with_record(
    alloc: Global,
    text: &str,
    number: usize,
    record: Option<&[u8]>,
) -> Result<Vec<u8>, AllocError> {
    let mut changed = Vec::new(alloc);
    let mut at = 0usize;
    for line in text.lines() {
        at = at.wrapping_add(1);
        if at != number {
            changed.extend_from_slice(line.as_bytes())?;
            changed.push(b'\n')?;
        } else if let Some(record) = record {
            changed.extend_from_slice(record)?;
            changed.push(b'\n')?;
        }
    }
    Ok(changed)
}

// `pick` of ticket 0 refuses the text with this line.
fn check_refused(
    rt: &(impl Abort + AllocGlobal),
    text: &[u8],
    line: &str,
) -> Result<(), AllocError> {
    check_pick(rt, text, "0", 3, "", line)
}

#[test]
fn plain_lottery_picks(rt: HostRuntime) -> Result<(), Fail> {
    let plain = PLAIN.as_bytes();
    check_pick(
        &rt,
        plain,
        "0",
        0,
        "ticket,0,2\npiece,1,1\ngive,x,a,1\ngive,y,b,1\nend,2\n",
        "",
    )?;
    check_pick(
        &rt,
        plain,
        "1",
        0,
        "ticket,1,2\npiece,2,1\ngive,x,b,1\ngive,y,a,1\nend,2\n",
        "",
    )?;
    check_pick(&rt, plain, "2", 3, "", "ticket: 2 of 2\n")?;
    check_pick(&rt, plain, "x1", 2, "", "usage\n")?;
    let cut = with_record(rt.alloc(), PLAIN, 13, None)?;
    check_refused(&rt, &cut, "lottery: record 13 kind 7\n")?;
    check_refused(&rt, b"", "lottery: record 1 kind 7\n")?;
    Ok(())
}

#[test]
fn boundary_of_tickets(rt: HostRuntime) -> Result<(), Fail> {
    let text = PRICED_THREE.as_bytes();
    for (ticket, picked) in [
        (
            "0",
            "ticket,0,6\npiece,1,1\ngive,x,a,1\ngive,y,b,1\ngive,z,none,1\nend,3\n",
        ),
        (
            "1",
            "ticket,1,6\npiece,2,2\ngive,x,a,1\ngive,y,none,1\ngive,z,b,1\nend,3\n",
        ),
        (
            "2",
            "ticket,2,6\npiece,2,2\ngive,x,a,1\ngive,y,none,1\ngive,z,b,1\nend,3\n",
        ),
        (
            "3",
            "ticket,3,6\npiece,3,1\ngive,x,b,1\ngive,y,a,1\ngive,z,none,1\nend,3\n",
        ),
        (
            "4",
            "ticket,4,6\npiece,4,2\ngive,x,none,1\ngive,y,a,1\ngive,z,b,1\nend,3\n",
        ),
        (
            "5",
            "ticket,5,6\npiece,4,2\ngive,x,none,1\ngive,y,a,1\ngive,z,b,1\nend,3\n",
        ),
    ] {
        check_pick(&rt, text, ticket, 0, picked, "")?;
    }
    check_pick(&rt, text, "6", 3, "", "ticket: 6 of 6\n")?;
    Ok(())
}

#[test]
fn weights_dont_add(rt: HostRuntime) -> Result<(), Fail> {
    let more = with_record(rt.alloc(), PRICED_THREE, 19, Some(b"piece,1,2"))?;
    check_refused(&rt, &more, "lottery: record 31 kind 6\n")?;
    let less = with_record(rt.alloc(), PRICED_THREE, 31, Some(b"piece,4,1"))?;
    check_refused(&rt, &less, "lottery: record 35 kind 6\n")?;
    Ok(())
}

#[test]
fn lottery_faults(rt: HostRuntime) -> Result<(), Fail> {
    let cases: [(usize, Option<&[u8]>, &str); 9] = [
        (1, Some(b"lottery,3"), "lottery: record 1 kind 9\n"),
        (3, Some(b"agents,x,y\xff,z"), "lottery: record 3 kind 1\n"),
        (3, Some(b"agents,x,y,x"), "lottery: record 3 kind 10\n"),
        (5, Some(b"row,x,3,1"), "lottery: record 5 kind 3\n"),
        (5, Some(b"row,x,6001,1,2"), "lottery: record 5 kind 8\n"),
        (8, Some(b"price,2,4"), "lottery: record 8 kind 2\n"),
        (19, Some(b"piece,1,0"), "lottery: record 19 kind 4\n"),
        (20, Some(b"give,w,a,1"), "lottery: record 20 kind 5\n"),
        (35, None, "lottery: record 35 kind 7\n"),
    ];
    for (number, record, line) in cases {
        let text = with_record(rt.alloc(), PRICED_THREE, number, record)?;
        check_refused(&rt, &text, line)?;
    }
    Ok(())
}

#[test]
fn limits_of_lotteries(rt: HostRuntime) -> Result<(), Fail> {
    let cases: [(usize, &[u8], &str); 4] = [
        (
            2,
            b"denominator,83076749736557242056487941267521537",
            "lottery: record 2 kind 8\n",
        ),
        (7, b"price,1,1099511627777", "lottery: record 7 kind 8\n"),
        (9, b"worth,x,a,-1099511627777", "lottery: record 9 kind 8\n"),
        (9, b"worth,x,a,1099511627777", "lottery: record 9 kind 8\n"),
    ];
    for (number, record, line) in cases {
        let text = with_record(rt.alloc(), PRICED_TWO, number, Some(record))?;
        check_refused(&rt, &text, line)?;
    }
    let text = PRICED_THREE.as_bytes();
    let greatest = "340282366920938463463374607431768211455";
    check_pick(
        &rt,
        text,
        greatest,
        3,
        "",
        "ticket: 340282366920938463463374607431768211455 of 6\n",
    )?;
    check_pick(
        &rt,
        text,
        "340282366920938463463374607431768211456",
        2,
        "",
        "usage\n",
    )?;
    Ok(())
}
