//! The objects that a text of quotas declares. No record is unlawful here.

ghost use Rattle.std.specs.Prelude.{◌≡◌, IfOk, OnOk};
ghost use Rattle.std.specs.Option.{option_copied};
ghost use Rattle.alloc_input.specs.Objects.{declared, declared_name, with_name};

use crate::fields::{add_name, is_null};
use quota_sets::Names;
use std::alloc::{AllocError, Global};
use table_text::{Row, Rows, is_word, name_of};

/// The objects that the records of quotas declare.
pub(crate) fn declared_objects(alloc: Global, rows: &Rows) -> Result<Names, AllocError>
    ensures { IfOk result (λ objects. objects ≡ declared rows.now) }
{
    let mut objects = Names::new(alloc);
    for i in 0..rows.len() {
        declare(rows.at(i), &mut objects)?;
    }
    Ok(objects)
}

// Adds the object that a record declares, if it declares a new one.
fn declare(row: &Row, objects: &mut Names) -> Result<(), AllocError>
    ensures { OnOk result (objects.new ≡ with_name objects.old (declared_name row.now)) }
{
    let Some(name) = declared_by(row) else {
        return Ok(());
    };
    if objects.find(name).is_some() {
        return Ok(());
    }
    add_name(objects, name)
}

// The name that a record declares.
#[tactic(auto, unfolding(crate::specs::Objects::declared_name))]
fn declared_by(row: &Row) -> Option<&str>
    ensures { option_copied result ≡ declared_name row.now }
{
    if row.len() < 2 {
        return None;
    }
    if row.len() > 4 {
        return None;
    }
    if !is_word(row.field(0), b"object") {
        return None;
    }
    if is_null(row.field(1)) {
        return None;
    }
    name_of(row.field(1))
}
