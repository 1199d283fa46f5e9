//! That each call that wants memory succeeds, on the smallest names, sets and problems.

ghost use Rattle.std.specs.Prelude.{◌≡◌, ◌≤◌, [], ◌∷◌, map, length, IfOk};
ghost use Rattle.definitions.specs.Sets.{cell_of};

use super::*;
use std::alloc::{AllocError, Global};
use std::test::Fail;

// The cell of the first agent and this object.
fn first_at(object: u32) -> Cell
    ensures { result ≡ cell_of 0 object }
{
    Cell { agent: 0, object }
}

// The lines at the head of the crate.
#[test]
fn first_infeasible_set(rt: HostRuntime) -> Result<(), Fail> {
    let alloc = rt.alloc();
    let mut names = Names::new(alloc);
    names.add_copy("Ada")?;
    assert_eq!(rt; names.name_at(0), "Ada");

    let matrix = Scaled::new(2, 1, 2, vec![in alloc; 1, 2]?);
    let mut family = Family::new(alloc, 1, 2);
    let both = vec![in alloc; first_at(0), first_at(1)]?;
    let number = family.insert(QuotaSet::new(1, 0, 1, both))?;
    assert_eq!(rt; number, 1);
    assert_eq!(rt; matrix.meets(&family), Err(Infeasible { set: 1, sum: 3 }));
    Ok(())
}

#[test]
fn names_in_order(rt: HostRuntime) -> Result<(), Fail> {
    let alloc = rt.alloc();
    let mut names = Names::new(alloc);
    assert_eq!(rt; names.add(String::from_str(alloc, "Ada")?).ok(), Some(0));
    assert_eq!(rt; names.add(String::from_str(alloc, "Zoë")?).ok(), Some(1));
    assert_eq!(rt; names.add(String::from_str(alloc, "Ada")?).ok(), None);
    assert_eq!(rt; names.find("Zoë"), Some(1));
    assert_eq!(rt; names.find_bytes(b"Zo\xc3"), None);
    Ok(())
}

// The lists of one agent to whom no object is acceptable, where there is none.
fn one_empty_list(alloc: Global) -> Result<Vec<Vec<u32>>, AllocError>
    ensures { IfOk result (λ lists. map (λ list. list.items) lists.items ≡ (0 ∷ []) ∷ []) }
{
    Ok(vec![in alloc; vec![in alloc; 0]?]?)
}

// The names of one agent.
fn one_agent(alloc: Global) -> Result<Names, Fail>
    ensures { IfOk result (λ names. length names ≡ 1) }
{
    let mut agents = Names::new(alloc);
    agents.add(String::from_str(alloc, "x")?)?;
    Ok(agents)
}

#[test]
fn a_problem_without_objects(rt: HostRuntime) -> Result<(), Fail> {
    let alloc = rt.alloc();
    let agents = one_agent(alloc)?;
    let lists = one_empty_list(alloc)?;
    let problem = Problem::new(
        alloc,
        agents,
        Names::new(alloc),
        lists,
        Family::new(alloc, 1, 1),
    )?;
    assert_eq!(rt; problem.demand(0), 1);
    assert_eq!(rt; problem.stated(), 0);
    assert_eq!(rt; problem.family().len(), 1);
    assert_eq!(rt; problem.list(0), [0].as_slice());
    Ok(())
}
