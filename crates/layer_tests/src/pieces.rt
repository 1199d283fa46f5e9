// Matrices are peeled, with cells and without.
use bihierarchy::Trees;
use peeling::{Peeler, all_pieces};
use quota_sets::{Family, Scaled};
use std::test::Fail;

#[test]
fn cell_in_no_set(rt: HostRuntime) -> Result<(), Fail> {
    let alloc = rt.alloc();
    let family = Family::new(alloc, 1, 1);
    let trees = Trees::of(alloc, &family)?;
    let x = Scaled::new(2, 1, 1, vec![in alloc; 1]?);
    let mut peeler = Peeler::new(alloc, &trees, &family, &x)?;
    let pieces = all_pieces(alloc, &mut peeler)?;
    assert_eq!(rt; pieces.list.len(), 2);
    let (first, second) = (&pieces.list[0].gives, &pieces.list[1].gives);
    assert!(rt; first.is_empty() != second.is_empty());
    Ok(())
}

#[test]
fn no_cell_at_all(rt: HostRuntime) -> Result<(), Fail> {
    let alloc = rt.alloc();
    let family = Family::new(alloc, 1, 0);
    let trees = Trees::of(alloc, &family)?;
    let x = Scaled::new(7, 1, 0, Vec::new(alloc));
    let mut peeler = Peeler::new(alloc, &trees, &family, &x)?;
    let pieces = all_pieces(alloc, &mut peeler)?;
    assert_eq!(rt; pieces.list.len(), 1);
    assert_eq!(rt; pieces.list[0].weight, 7);
    assert_eq!(rt; pieces.list[0].gives.len(), 0);
    assert_eq!(rt; peeler.next(), None);
    Ok(())
}
