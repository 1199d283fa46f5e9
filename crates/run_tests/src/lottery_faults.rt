// Faults of lotteries, at each place at which one is found.
use crate::runs::{PRICED_THREE, run_on};
use std::alloc::{AllocError, Global};
use std::process::Abort;
use std::test::Fail;

// `pick` refuses the text with this record and kind.
fn check_fault(
    rt: &(impl Abort + AllocGlobal),
    text: &[u8],
    record: u32,
    kind: &str,
) -> Result<(), AllocError> {
    let line = format!(in rt.alloc(); "lottery: record {record} kind {kind}\n")?;
    let seen = run_on(rt.alloc(), &["pick", "lottery.csv", "0"], text)?;
    assert_eq!(rt;
        seen.err.as_slice(),
        line.as_bytes(),
        "record {record} kind {kind}"
    );
    assert_eq!(rt; seen.status, 3, "record {record} kind {kind}");
    Ok(())
}

// The first records of the priced lottery, so many.
fn first_records(alloc: Global, count: u32) -> Result<Vec<u8>, AllocError> {
    let mut text = Vec::new(alloc);
    for line in PRICED_THREE.lines().take(count as usize) {
        text.extend_from_slice(line.as_bytes())?;
        text.push(b'\n')?;
    }
    Ok(text)
}

// How many records of the priced lottery stand before the last one, the number of its fault, and
// that record.
const FAULTS: &str = "0|2|denominator,6\n0|3|lottery\n0|9|lottery,2\n\
    1|3|denominator\n1|4|denominator,x\n1|4|denominator,0\n1|8|denominator,83076749736557242056487941267521537\n\
    2|3|agents\n2|10|agents,*\n2|10|agents,x,x\n\
    3|10|objects,*\n3|10|objects,a,a\n3|10|objects,none,a\n\
    4|2|piece,1,1\n4|3|row,x,1,1\n4|5|row,w,1,1,1\n4|2|row,y,1,1,1\n\
    4|4|row,x,1,b,6001\n4|8|row,x,6001,0,b\n4|8|row,x,6000,1,b\n\
    7|2|row,x,1,1,1\n7|3|price,1\n7|4|price,x,0\n7|2|price,2,0\n7|4|price,1,-1\n7|8|price,1,1099511627777\n\
    9|3|worth,x,a\n9|5|worth,w,a,1\n9|2|worth,y,a,1\n9|5|worth,x,c,1\n10|2|worth,x,a,1\n9|4|worth,x,a,1/2\n\
    10|8|worth,x,b,-1099511627777\n\
    17|2|piece,1,1\n18|3|piece,1\n18|4|piece,x,1\n18|2|piece,2,1\n18|4|piece,1,0\n18|6|piece,1,7\n\
    20|3|give,y,b\n20|5|give,w,b,1\n20|5|give,y,c,1\n20|2|give,x,a,1\n20|4|give,y,b,0\n20|8|give,y,b,1001\n\
    34|3|end\n34|4|end,3\n30|6|end,3\n35|2|end,4\n\
    0|7|\n22|7|\n34|7|\n";

#[test]
fn faults_of_records(rt: HostRuntime) -> Result<(), Fail> {
    for line in FAULTS.lines() {
        let (count, rest) = line.split_once('|').ok_or("no count")?;
        let (kind, last) = rest.split_once('|').ok_or("no kind")?;
        let count = count.parse::<u32>()?;
        let mut text = first_records(rt.alloc(), count)?;
        text.extend_from_slice(last.as_bytes())?;
        check_fault(&rt, &text, count.wrapping_add(1), kind)?;
    }
    check_fault(&rt, b"lottery,\xff", 1, "1")?;
    Ok(())
}

// Adds a record of so many names.
fn add_names(alloc: Global, word: &str, count: u32, text: &mut Vec<u8>) -> Result<(), AllocError> {
    text.extend_from_slice(word.as_bytes())?;
    for number in 0..count {
        let name = format!(in alloc; ",{number}")?;
        text.extend_from_slice(name.as_bytes())?;
    }
    text.push(b'\n')?;
    Ok(())
}

#[test]
fn faults_past_the_limits(rt: HostRuntime) -> Result<(), Fail> {
    let alloc = rt.alloc();
    let mut text = first_records(alloc, 2)?;
    add_names(alloc, "agents", 1001, &mut text)?;
    check_fault(&rt, &text, 3, "8")?;
    let mut text = first_records(alloc, 3)?;
    add_names(alloc, "objects", 201, &mut text)?;
    check_fault(&rt, &text, 4, "8")?;
    let mut text = first_records(alloc, 7)?;
    for number in 1..1002u32 {
        let price = format!(in alloc; "price,{number},0\n")?;
        text.extend_from_slice(price.as_bytes())?;
    }
    check_fault(&rt, &text, 1008, "8")?;
    Ok(())
}
