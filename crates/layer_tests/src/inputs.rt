// Readers of demands and of quotas over a matrix.
ghost use Rattle.std.specs.Prelude.{◌≡◌, false, OnOk};
ghost use Rattle.definitions.specs.Texts.{has_name, null_name};

use alloc_input::{
    Mode, lawful_matrices_suit, read_demands, read_matrix, read_problem, read_quotas,
};
use quota_sets::Names;
use std::test::Fail;

// No object is named `none`.
fn need_plain(objects: &Names) -> Result<(), Fail>
    ensures { OnOk result (has_name objects.now null_name ≡ false) }
{
    if objects.find_bytes(b"none").is_some() {
        Err("an object none")?;
    }
    Ok(())
}

#[test]
fn demands_of_a_problem(rt: HostRuntime) -> Result<(), Fail> {
    let quotas = b"object,a\nagent,v,2,2\n".as_slice();
    let problem = read_problem(rt.alloc(), b"agent\nu\nv\nx\n", quotas)?;
    let objects = problem.objects();
    need_plain(objects)?;
    let demands = read_demands(rt.alloc(), quotas, problem.agents(), objects)?;
    assert_eq!(rt; demands.as_slice(), [1, 2, 1].as_slice());
    Ok(())
}

#[test]
fn sets_over_a_matrix(rt: HostRuntime) -> Result<(), Fail> {
    let shares = read_matrix(rt.alloc(), b"agent,a,b\nu,1/2\nv,0.5,1/2\nx\n")?;
    lawful_matrices_suit();
    let text =
        b"agent,v,1,2\nobject,a,,3\ngroup,G,v,u,v\nbundle,B,b,a\nset,S,2,,3\nin,S,G,b\nin,S,v,B\nin,S,*,b\n";
    let family = read_quotas(
        rt.alloc(),
        text,
        shares.agents(),
        shares.objects(),
        Mode::Decompose,
    )?;
    assert_eq!(rt; shares.entries().len(), 6);
    assert_eq!(rt; family.get(3).ok_or("no set 3")?.cells().len(), 4);
    Ok(())
}
