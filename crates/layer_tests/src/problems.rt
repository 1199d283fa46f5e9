// What is eaten in small problems, and prices.
use alloc_input::read_problem;
use bihierarchy::Trees;
use eating::{Eater, eat};
use price_cert::certificate;
use quota_sets::Cell;
use std::test::Fail;

// The smallest problem: one agent with a demand of 3, and no object.
#[test]
fn a_demand_without_objects(rt: HostRuntime) -> Result<(), Fail> {
    let alloc = rt.alloc();
    let problem = read_problem(alloc, b"agent\nx\n", b"agent,x,3,3\n")?;
    let trees = Trees::of(alloc, problem.family())?;
    let eaten = eat(alloc, &problem, &trees)?;
    assert_eq!(rt; eaten.shares().denominator(), 1);
    let none = Cell {
        agent: 0,
        object: 0,
    };
    assert_eq!(rt; eaten.shares().at(none), 3);
    assert_eq!(rt; eaten.moments(), [].as_slice());
    assert_eq!(rt; eaten.caps(), [1].as_slice());
    let prices = certificate(alloc, &problem, &trees, &eaten)?;
    assert_eq!(rt; prices.price.as_slice(), [].as_slice());
    assert_eq!(rt; prices.worth.len(), 1);
    for worths in &prices.worth {
        assert_eq!(rt; worths.as_slice(), [0].as_slice());
    }
    Ok(())
}

// Of two objects for three agents the second is eaten up after the first: an eater takes its memory, and then eats.
#[test]
fn an_eater_finishes(rt: HostRuntime) -> Result<(), Fail> {
    let alloc = rt.alloc();
    let lists = b"agent,first,second\nx,a,b\ny,a,b\nz,b,a\n";
    let problem = read_problem(alloc, lists, b"object,a,,1\nobject,b,,1\n")?;
    let trees = Trees::of(alloc, problem.family())?;
    let eater = Eater::new(alloc, &problem, &trees)?;
    let eaten = eater.finish()?;
    assert_eq!(rt; eaten.shares().denominator(), 6);
    assert_eq!(rt; eaten.moments(), [3, 4].as_slice());
    assert_eq!(rt; eaten.caps(), [6; 9].as_slice());
    Ok(())
}
