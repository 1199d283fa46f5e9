// Lotteries are read and written, whole and by their parts.
use device_core::SureSink;
use lottery_file::{read_lottery, write_end, write_head, write_lottery, write_piece};
use std::test::Fail;

// Two agents who share two objects, without prices.
const PLAIN: &str = "lottery,1\ndenominator,2\nagents,x,y\nobjects,a,b\nrow,x,1,1\nrow,y,1,1\n\
    piece,1,1\ngive,x,a,1\ngive,y,b,1\npiece,2,1\ngive,x,b,1\ngive,y,a,1\nend,2\n";

// Two agents with their lists and a price, and names that have to be quoted.
const PRICED: &str =
    "lottery,1\ndenominator,2\nagents,\"Lee, Ada\",\"O\"\"Dea, Jo\"\nobjects,North,South,none\n\
    row,\"Lee, Ada\",1,1,0\nrow,\"O\"\"Dea, Jo\",1,1,0\nprice,1,4\nprice,2,0\n\
    worth,\"Lee, Ada\",North,4\nworth,\"Lee, Ada\",South,0\nworth,\"Lee, Ada\",none,-1\n\
    worth,\"O\"\"Dea, Jo\",North,4\nworth,\"O\"\"Dea, Jo\",South,0\nworth,\"O\"\"Dea, Jo\",none,-1\n\
    piece,1,1\ngive,\"Lee, Ada\",North,1\ngive,\"O\"\"Dea, Jo\",South,1\n\
    piece,2,1\ngive,\"Lee, Ada\",South,1\ngive,\"O\"\"Dea, Jo\",North,1\nend,2\n";

#[test]
fn priced_lottery_is_rewritten(rt: HostRuntime) -> Result<(), Fail> {
    let lottery = read_lottery(rt.alloc(), PRICED.as_bytes())?;
    let mut sink = SureSink::new(rt.alloc());
    write_lottery(rt.alloc(), &lottery, &mut sink)?;
    assert_eq!(rt; sink.bytes(), PRICED.as_bytes());
    Ok(())
}

#[test]
fn parts_are_the_text(rt: HostRuntime) -> Result<(), Fail> {
    let alloc = rt.alloc();
    let lottery = read_lottery(alloc, PLAIN.as_bytes())?;
    let (agents, columns) = (&lottery.agents, &lottery.columns);
    if agents.len() != 2 || columns.len() != 2 {
        Err("not two by two")?;
    }
    let mut sink = SureSink::new(alloc);
    write_head(
        alloc,
        agents,
        columns,
        &lottery.shares,
        &[],
        None,
        &mut sink,
    )?;
    write_piece(alloc, agents, columns, 1, 1, &[1, 0, 0, 1], &mut sink)?;
    write_piece(alloc, agents, columns, 2, 1, &[0, 1, 1, 0], &mut sink)?;
    write_end(alloc, 2, &mut sink)?;
    assert_eq!(rt; sink.bytes(), PLAIN.as_bytes());
    Ok(())
}
