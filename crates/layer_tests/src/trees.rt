// The parents and deepest sets of nested and of equal sets.
ghost use Rattle.std.specs.Prelude.{◌≡◌, ◌∷◌, [], IfOk};
ghost use Rattle.definitions.specs.Sets.{cell_of};

use bihierarchy::Trees;
use quota_sets::{Cell, Family, QuotaSet};
use std::alloc::{AllocError, Global};
use std::test::Fail;

fn cell(agent: u32) -> Cell
    ensures { result ≡ cell_of agent 0 }
{
    Cell { agent, object: 0 }
}

// Two of three agents, in one column.
fn two(alloc: Global) -> Result<QuotaSet, AllocError>
    ensures { IfOk result (λ set. set ≡ record {
      side = 2;
      floor = 0;
      ceiling = 1;
      cells = cell_of 0 0 ∷ cell_of 1 0 ∷ [];
    }) }
{
    let cells = vec![in alloc; cell(0), cell(1)]?;
    Ok(QuotaSet::new(2, 0, 1, cells))
}

// All three.
fn three(alloc: Global) -> Result<QuotaSet, AllocError>
    ensures { IfOk result (λ set. set ≡ record {
      side = 2;
      floor = 0;
      ceiling = 1;
      cells = cell_of 0 0 ∷ cell_of 1 0 ∷ cell_of 2 0 ∷ [];
    }) }
{
    let cells = vec![in alloc; cell(0), cell(1), cell(2)]?;
    Ok(QuotaSet::new(2, 0, 1, cells))
}

#[test]
fn nested_and_equal_sets(rt: HostRuntime) -> Result<(), Fail> {
    let alloc = rt.alloc();
    let mut family = Family::new(alloc, 3, 1);
    family.insert(three(alloc)?)?;
    family.insert(two(alloc)?)?;
    family.insert(two(alloc)?)?;
    let trees = Trees::of(alloc, &family)?;
    assert_eq!(rt; trees.parent(1), None);
    assert_eq!(rt; trees.parent(2), Some(3));
    assert_eq!(rt; trees.parent(3), Some(1));
    assert_eq!(rt; trees.deepest(2, cell(1)), Some(2));
    assert_eq!(rt; trees.deepest(2, cell(2)), Some(1));
    assert_eq!(rt; trees.deepest(1, cell(0)), None);
    Ok(())
}
