// Who envies whom in what is eaten, and pieces for the family that guards it.
use alloc_input::read_problem;
use bihierarchy::Trees;
use eating::eat;
use fairness_core::{Envy, EnvyPoint, eaten_envy};
use guard_sets::guarded_pieces;
use std::test::Fail;

#[test]
fn envy_in_what_is_eaten(rt: HostRuntime) -> Result<(), Fail> {
    let alloc = rt.alloc();
    let lists = b"agent\nu,a,b\nv,b,a\np,b\n".as_slice();
    let quotas = b"object,a,,2\nobject,b,,2\nagent,u,2,2\nagent,v,2,2\n".as_slice();
    let problem = read_problem(alloc, lists, quotas)?;
    let trees = Trees::of(alloc, problem.family())?;
    let eaten = eat(alloc, &problem, &trees)?;
    let envies = eaten_envy(alloc, &problem, &eaten)?;
    let due = [
        Envy {
            from: 0,
            to: 1,
            point: EnvyPoint {
                place: 2,
                own: 8,
                other: 12,
            },
        },
        Envy {
            from: 2,
            to: 1,
            point: EnvyPoint {
                place: 1,
                own: 4,
                other: 6,
            },
        },
    ];
    assert_eq!(rt; envies.list.as_slice(), due.as_slice());
    Ok(())
}

// Each agent has odds of one half of a, so one piece doesn't do.
#[test]
fn guarded_pieces_of_what_is_eaten(rt: HostRuntime) -> Result<(), Fail> {
    let alloc = rt.alloc();
    let lists = b"agent\nx,a,b,c\ny,a,b,c\n".as_slice();
    let quotas = b"object,a,,1\nobject,b,,1\nobject,c,,1\nagent,x,2,2\nagent,y,2,2\n".as_slice();
    let problem = read_problem(alloc, lists, quotas)?;
    let trees = Trees::of(alloc, problem.family())?;
    let eaten = eat(alloc, &problem, &trees)?;
    let pieces = guarded_pieces(alloc, &problem, eaten.shares())?;
    assert!(rt; pieces.list.len() >= 2);
    Ok(())
}
