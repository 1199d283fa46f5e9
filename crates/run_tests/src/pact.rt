// `pact-commit` and `pact-draw`: a seed that several parties make, and what is drawn with it. The
// digests, the seeds and their tickets were made by an independent program.
use crate::runs::{PRICED_THREE, ZEROS, check_both, run_alone, run_on_both};
use std::alloc::AllocError;
use std::process::Abort;
use std::test::Fail;

// A lottery of one agent and one ticket.
const ONE_TICKET: &str = "lottery,1\ndenominator,1\nagents,x\nobjects,none\nrow,x,1\n\
worth,x,none,0\npiece,1,1\ngive,x,none,1\nend,1\n";

// A pact of one party, record by record.
const ALONE: [&str; 3] = [
    "pact,1\n",
    "commit,A,c3f43f2d59222751fd34bbfc11a6f6ffa56a5576976802a6dc41faffaa6d1b78\n",
    "reveal,A,0000000000000000000000000000000000000000000000000000000000000000\n",
];

// `pact-draw` over this lottery ends with this status, and writes this to each sink.
fn check_pact(
    rt: &(impl Abort + AllocGlobal),
    lottery: &str,
    records: &[&str],
    status: u8,
    out: &str,
    err: &str,
) -> Result<(), AllocError> {
    let mut pact = Vec::new(rt.alloc());
    for record in records {
        pact.extend_from_slice(record.as_bytes())?;
    }
    check_both(rt, "pact-draw", lottery.as_bytes(), &pact, status, out, err)
}

#[test]
fn pact_of_one(rt: HostRuntime) -> Result<(), Fail> {
    let seen = run_alone(rt.alloc(), &["pact-commit", "A", ZEROS])?;
    assert_eq!(rt; seen.status, 0);
    assert_eq!(rt; seen.out.as_slice(), ALONE[1].as_bytes());
    assert!(rt; seen.err.is_empty());

    let drawn = "seed,66687aadf862bd776c8fc18b8e9f8e20089714856ee233b3902a591d0d5f2925\n\
        ticket,0,1\npiece,1,1\ngive,x,none,1\nend,1\n";
    check_pact(&rt, ONE_TICKET, &ALONE, 0, drawn, "")?;
    let changed = "reveal,A,0000000000000000000000000000000000000000000000000000000000000001\n";
    let mismatch = "pact: record 3 kind 9\n";
    check_pact(
        &rt,
        ONE_TICKET,
        &[ALONE[0], ALONE[1], changed],
        3,
        "",
        mismatch,
    )?;
    let missing = "pact: record 3 kind 10\n";
    check_pact(&rt, ONE_TICKET, &[ALONE[0], ALONE[1]], 3, "", missing)?;
    let twice = [ALONE[0], ALONE[1], ALONE[2], ALONE[2]];
    check_pact(&rt, ONE_TICKET, &twice, 3, "", "pact: record 4 kind 8\n")?;
    check_pact(&rt, ONE_TICKET, &[], 3, "", "pact: record 1 kind 10\n")?;
    Ok(())
}

// The seed of one contribution is the SHA-256 of its 32 bytes: a vector that NIST published for messages of
// 256 bits.
#[test]
fn published_vector(rt: HostRuntime) -> Result<(), Fail> {
    let records = [
        "pact,1\n",
        "commit,A,5966293a8e138616001ede1d03a9052b8864ec35968c78aa8ae27ba81065617c\n",
        "reveal,A,09fc1accc230a205e4a208e64a8f204291f581a12756392da4b8c0cf5ef02b95\n",
    ];
    let drawn = "seed,4f44c1c7fbebb6f9601829f3897bfd650c56fa07844be76489076356ac1886a4\n\
        ticket,0,1\npiece,1,1\ngive,x,none,1\nend,1\n";
    check_pact(&rt, ONE_TICKET, &records, 0, drawn, "")?;
    Ok(())
}

// Three parties, who reveal in either order. Their seed names ticket 2 of 6.
#[test]
fn pact_of_three(rt: HostRuntime) -> Result<(), Fail> {
    let front = "pact,1\n\
        commit,Ada,e15622111368fd9fdf4fc37945030ad4efe0da90cc6f33a59aada9c420d72bb9\n\
        commit,Ben,38EB05BBF7CAD951C8B95EACEF5FC144941D4778EBCE940F5F2D6EB298C3D585\n\
        commit,Cleo,2de93e5b1bf81e33db93064864e874bc792b494d26e51d7dea70fc5c18072ab8\n";
    let ada = "reveal,Ada,1111111111111111111111111111111111111111111111111111111111111111\n";
    let ben = "reveal,Ben,2222222222222222222222222222222222222222222222222222222222222222\n";
    let cleo = "reveal,Cleo,3333333333333333333333333333333333333333333333333333333333333333\n";
    let drawn = "seed,8cfa0e55b092114ec1d274d633d317f8dbce497239ae76722c0add142278ff5e\n\
        ticket,2,6\npiece,2,2\ngive,x,a,1\ngive,y,none,1\ngive,z,b,1\nend,3\n";
    check_pact(&rt, PRICED_THREE, &[front, ada, ben, cleo], 0, drawn, "")?;
    check_pact(&rt, PRICED_THREE, &[front, cleo, ben, ada], 0, drawn, "")?;
    let missing = "pact: record 7 kind 10\n";
    check_pact(&rt, PRICED_THREE, &[front, cleo, ada], 3, "", missing)?;
    Ok(())
}

// How many records of the pact of one party stand before the last one, the number of its fault, and
// that record.
const FAULTS: &str = "0|2|reveal,A\n0|2|Pact,1\n1|2|pact,1\n1|2|reveal,A,0\n3|2|commit,B,0\n\
    0|3|pact\n0|3|pact,1,1\n1|3|commit,A\n2|3|reveal,A\n\
    1|4|commit,*,0\n2|5|commit,A,0\n1|6|commit,A,0\n2|6|reveal,A,0\n\
    2|7|reveal,B,0\n3|8|reveal,A,0\n0|10|\n1|10|\n2|10|\n0|12|pact,2\n";

// The pact is refused with this record and kind.
fn check_fault(
    rt: &(impl Abort + AllocGlobal),
    pact: &[u8],
    record: u32,
    kind: &str,
) -> Result<(), AllocError> {
    let line = format!(in rt.alloc(); "pact: record {record} kind {kind}\n")?;
    let seen = run_on_both(rt.alloc(), "pact-draw", ONE_TICKET.as_bytes(), pact)?;
    assert_eq!(rt;
        seen.err.as_slice(),
        line.as_bytes(),
        "record {record} kind {kind}"
    );
    assert_eq!(rt; seen.status, 3, "record {record} kind {kind}");
    Ok(())
}

#[test]
fn faults_of_records(rt: HostRuntime) -> Result<(), Fail> {
    for line in FAULTS.lines() {
        let (count, rest) = line.split_once('|').ok_or("no count")?;
        let (kind, last) = rest.split_once('|').ok_or("no kind")?;
        let count = count.parse::<u32>()?;
        let mut pact = Vec::new(rt.alloc());
        for record in ALONE.iter().take(count as usize) {
            pact.extend_from_slice(record.as_bytes())?;
        }
        pact.extend_from_slice(last.as_bytes())?;
        check_fault(&rt, &pact, count.wrapping_add(1), kind)?;
    }
    check_fault(&rt, b"pact,\xff", 1, "1")?;
    Ok(())
}

// A pact has at most 1,000 parties.
#[test]
fn parties_past_the_limit(rt: HostRuntime) -> Result<(), Fail> {
    let mut pact = ALONE[0].as_bytes().to_vec(rt.alloc())?;
    for number in 1..=1001u32 {
        let record = format!(in rt.alloc(); "commit,{number},{ZEROS}\n")?;
        pact.extend_from_slice(record.as_bytes())?;
    }
    check_fault(&rt, &pact, 1002, "11")?;
    Ok(())
}

// A lottery's fault comes before that of the pact.
#[test]
fn lottery_before_pact(rt: HostRuntime) -> Result<(), Fail> {
    check_pact(&rt, "", &[], 3, "", "lottery: record 1 kind 7\n")?;
    Ok(())
}

#[test]
fn unlawful_words(rt: HostRuntime) -> Result<(), Fail> {
    let long = "aaaaaaaaaaaaaaaaaaaaaaaaaaaaaaaaaaaaaaaaaaaaaaaaaaaaaaaaaaaaaaaaa";
    for (name, contribution) in [
        ("*", ZEROS),
        ("", ZEROS),
        ("A\n", ZEROS),
        (long, ZEROS),
        ("A", "0"),
    ] {
        let seen = run_alone(rt.alloc(), &["pact-commit", name, contribution])?;
        assert_eq!(rt; seen.status, 2, "status of {name}");
        assert!(rt; seen.out.is_empty());
        assert_eq!(rt; seen.err.as_slice(), b"usage\n".as_slice());
    }
    Ok(())
}
