//! The header of a matrix: the objects from left to right.

ghost use Rattle.std.specs.Prelude.{◌≡◌, ◌<◌, ◌++◌, ◌∷◌, [], drop, length};
ghost use Rattle.alloc_input.specs.Checks.{Checks};
ghost use Rattle.alloc_input.specs.Matrices.{check_header, check_heading};

use crate::faults::{InputKind, Stop};
use crate::fields::{add_name, is_null, need, need_new, read_name};
use crate::limits::MOST_OBJECTS;
use quota_sets::Names;
use std::alloc::Global;
use table_text::{Row, is_word};

/// The objects that the header names.
#[tactic(auto, unfolding(crate::specs::Matrices::check_header))]
pub(crate) fn read_header(alloc: Global, row: &Row) -> Result<Names, Stop>
    requires { 0 < length row.now }
    ensures { Checks result (check_header row.now) (λ objects. objects ≡ drop 1 row.now) }
{
    need(is_word(row.field(0), b"agent"), InputKind::NoHeader)?;
    let mut objects = Names::new(alloc);
    for j in 0..row.len() - 1 {
        take_heading(row.field(j + 1), &mut objects)?;
    }
    Ok(objects)
}

// Takes one more object of the header.
#[tactic(auto, unfolding(crate::specs::Matrices::check_heading))]
fn take_heading(field: &[u8], objects: &mut Names) -> Result<(), Stop>
    ensures { Checks result (check_heading objects.old field.now) (λ _. objects.new ≡ objects.old ++ field.now ∷ []) }
{
    let name = read_name(field)?;
    need(!is_null(field), InputKind::BadName)?;
    need_new(objects, field, InputKind::RepeatedName)?;
    need(objects.len() < MOST_OBJECTS, InputKind::OverLimit)?;
    add_name(objects, name)?;
    Ok(())
}
