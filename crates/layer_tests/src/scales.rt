// The units of shares over their least common denominator.
ghost use Rattle.std.specs.Prelude.{◌*◌, ◌≤◌, All};
ghost use Rattle.frac128.specs.Fraction.{numerator, denominator};

use frac128::Fraction;
use quota_sets::{Cell, Names};
use scaled_matrix::{Shares, scale};
use std::alloc::Global;
use std::test::Fail;

// One agent's shares of as many objects.
fn row(alloc: Global, entries: Vec<Fraction>) -> Result<Shares, Fail>
    requires { All (λ x. numerator x ≤ 1000 * denominator x) entries.items }
{
    let mut agents = Names::new(alloc);
    agents.add(String::from_str(alloc, "x")?)?;
    let mut objects = Names::new(alloc);
    for i in 0..entries.len() {
        objects.add(format!(in alloc; "{i}")?)?;
    }
    Ok(Shares::new(agents, objects, entries))
}

#[test]
fn shares_and_scaling(rt: HostRuntime) -> Result<(), Fail> {
    let alloc = rt.alloc();
    let entries = vec![in alloc;
        Fraction::new(25, 100),
        Fraction::new(1, 3),
        Fraction::new(2, 1),
    ]?;
    let x = scale(alloc, &row(alloc, entries)?)?;
    assert_eq!(rt; x.denominator(), 12);
    assert_eq!(rt; x.agents(), 1);
    assert_eq!(rt; x.columns(), 3);
    for (object, units) in [(0, 3), (1, 4), (2, 24)] {
        assert_eq!(rt; x.at(Cell { agent: 0, object }), units);
    }
    Ok(())
}
