//! Numbered names. Whose names they are is not known here.

ghost use Rattle.std.specs.Prelude.{◌≡◌, ◌≤◌, ◌<◌, IfOk, string_bytes};
ghost use Rattle.alloc_gen.specs.Made.{made_name, made_names};

use quota_sets::{NameFault, Names};
use std::alloc::{AllocError, Global};

// So many names: the letter with the numbers from 1 on.
pub fn make_names(alloc: Global, letter: &str, count: u32) -> Result<Names, AllocError>
    requires { count ≤ 1000 }
    ensures { IfOk result (λ names. names ≡ made_names letter.now count) }
{
    let mut names = Names::new(alloc);
    for index in 0..count {
        let name = make_name(alloc, letter, index)?;
        match names.add(name) {
            Ok(_) => {}
            Err(NameFault::NoMemory(_)) => return Err(AllocError),
            Err(NameFault::Repeated(_)) => unreachable!(),
        }
    }
    Ok(names)
}

// The name at a place: the letter and the number of the place, from 1 on.
fn make_name(alloc: Global, letter: &str, index: u32) -> Result<String, AllocError>
    requires { index < 1000 }
    ensures { IfOk result (λ name. string_bytes name ≡ made_name letter.now index) }
{
    let number = index + 1;
    format!(in alloc; "{letter}{number}")
}
