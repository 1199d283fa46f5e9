//! Sets that can still grow, one after the other, and the limits on all of them.

ghost use Rattle.std.specs.Prelude.{◌≡◌, ◌≤◌, ◌-◌, ◌+◌, ◌∷◌, ◌++◌, [], length, nat_le, IfOk, OnOk};
ghost use Rattle.alloc_input.specs.Cells.{numbers_to, with_rectangle};
ghost use Rattle.alloc_input.specs.Checks.{Checks, need};
ghost use Rattle.alloc_input.specs.Marked.{IsGrown, IsMarked, marked_cells};
ghost use Rattle.alloc_input.specs.Stated.{empty_set, grown_at, with_rectangle_in};
ghost use Rattle.alloc_input.specs.Quotas.{check_limits};
ghost use Rattle.alloc_input.specs.Reading.{AreQuotas, IsCounted, IsOpen, set_value, values};
ghost use Rattle.alloc_input.specs.declared.faults.InputKind.TheVariants as kind;

use crate::faults::{InputKind, Stop};
use crate::fields::need;
use crate::limits::{MOST_CELLS, MOST_SETS};
use crate::quotas::fields::Quotas;
use crate::quotas::marks::{Marks, mark};
use std::alloc::{AllocError, Global};

/// How many agents and objects there are.
#[derive(Clone, Copy, Debug)]
pub(crate) struct Size {
    pub agents: u32,
    pub objects: u32,
}

/// A set that can still grow.
#[derive(Drop)]
pub(crate) struct OpenSet {
    pub side: u8,
    pub floor: u32,
    pub ceiling: u32,
    pub marks: Marks,
}

// Adds an empty set within the limits.
#[tactic(auto, unfolding(crate::specs::Quotas::check_limits))]
fn push_set(sets: &mut Vec<OpenSet>, total: usize, size: Size, set: OpenSet) -> Result<(), Stop>
    requires counted { IsCounted size.agents size.objects sets.old.items total }
    requires opened { IsOpen size.agents size.objects set }
    requires none { marked_cells set.marks ≡ [] }
    ensures checked { Checks result (check_limits (values sets.old.items ++ set_value set ∷ [])) (λ _. values sets.new.items ≡ values sets.old.items ++ set_value set ∷ []) }
    ensures counted { OnOk result (IsCounted size.agents size.objects sets.new.items total) }
{
    need(sets.len() < MOST_SETS, InputKind::OverLimit)?;
    sets.push(set)?;
    Ok(())
}

/// Adds an empty set within the limits.
pub(crate) fn push_empty(
    alloc: Global,
    sets: &mut Vec<OpenSet>,
    total: usize,
    size: Size,
    side: u8,
    quotas: Quotas,
) -> Result<(), Stop>
    requires counted { IsCounted size.agents size.objects sets.old.items total }
    requires quotas { AreQuotas side quotas.floor quotas.ceiling }
    ensures checked { let added = empty_set side quotas.floor quotas.ceiling in
        Checks result (check_limits (values sets.old.items ++ added ∷ [])) (λ _. values sets.new.items ≡ values sets.old.items ++ added ∷ []) }
    ensures counted { OnOk result (IsCounted size.agents size.objects sets.new.items total) }
{
    let marks = Marks::new(alloc, size.agents, size.objects);
    let set = OpenSet {
        side,
        floor: quotas.floor,
        ceiling: quotas.ceiling,
        marks,
    };
    push_set(sets, total, size, set)
}

/// Adds a set of the cells of a rectangle within the limits.
pub(crate) fn push_rectangle(
    alloc: Global,
    sets: &mut Vec<OpenSet>,
    total: &mut usize,
    size: Size,
    side: u8,
    quotas: Quotas,
    agents: &[u32],
    columns: &[u32],
) -> Result<(), Stop>
    requires counted { IsCounted size.agents size.objects sets.old.items total.old }
    requires quotas { AreQuotas side quotas.floor quotas.ceiling }
    ensures checked { let added = with_rectangle_in size.agents size.objects agents.now columns.now (empty_set side quotas.floor quotas.ceiling) in
        Checks result (check_limits (values sets.old.items ++ added ∷ [])) (λ _. values sets.new.items ≡ values sets.old.items ++ added ∷ []) }
    ensures counted { OnOk result (IsCounted size.agents size.objects sets.new.items total.new) }
{
    need(sets.len() < MOST_SETS, InputKind::OverLimit)?;
    let mut marks = Marks::new(alloc, size.agents, size.objects);
    mark(alloc, &mut marks, agents, columns, MOST_CELLS - *total)?;
    let cells = marks.count;
    let set = OpenSet {
        side,
        floor: quotas.floor,
        ceiling: quotas.ceiling,
        marks,
    };
    sets.push(set)?;
    *total += cells;
    Ok(())
}

// Adds the cells of a rectangle to one set, and answers how many cells all sets have then.
fn grow_marks(
    alloc: Global,
    marks: &mut Marks,
    agents: &[u32],
    columns: &[u32],
    total: usize,
) -> Result<usize, Stop>
    requires marked { IsMarked marks.old }
    requires part { marks.old.count ≤ total }
    requires few { total ≤ 1000000 }
    ensures { let after = with_rectangle marks.old.agents marks.old.columns agents.now columns.now (marked_cells marks.old) in
        Checks result (need (nat_le (length after) (1000000 - (total - marks.old.count))) kind.OverLimit)
        (λ t. (marked_cells marks.new ≡ after) × IsGrown marks.old marks.new × (t + marks.old.count ≡ total + marks.new.count) × (t ≤ 1000000)) }
{
    let others = total - marks.count;
    mark(alloc, marks, agents, columns, MOST_CELLS - others)?;
    Ok(others + marks.count)
}

/// Adds the cells of a rectangle to the set at a place, within the limits.
pub(crate) fn grow(
    alloc: Global,
    sets: &mut Vec<OpenSet>,
    total: &mut usize,
    size: Size,
    place: u32,
    agents: &[u32],
    columns: &[u32],
) -> Result<(), Stop>
    requires { IsCounted size.agents size.objects sets.old.items total.old }
    ensures checked { let after = grown_at size.agents size.objects (values sets.old.items) place agents.now columns.now in
        Checks result (check_limits after) (λ _. values sets.new.items ≡ after) }
    ensures counted { OnOk result (IsCounted size.agents size.objects sets.new.items total.new) }
{
    let at = place as usize;
    if at >= sets.len() {
        return Ok(());
    }
    *total = grow_marks(alloc, &mut sets[at].marks, agents, columns, *total)?;
    Ok(())
}

/// The place of the next set.
pub(crate) fn next_place(sets: &Vec<OpenSet>) -> u32
    requires { length sets.now.items ≤ 1000 }
    ensures { result ≡ length (values sets.now.items) }
{
    sets.len() as u32
}

/// The numbers below n, in order.
pub(crate) fn all_numbers(alloc: Global, n: u32) -> Result<Vec<u32>, AllocError>
    ensures { IfOk result (λ v. v.items ≡ numbers_to n) }
{
    let mut all = Vec::new(alloc);
    for i in 0..n {
        all.push(i)?;
    }
    Ok(all)
}
