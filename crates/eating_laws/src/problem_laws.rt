//! Laws on the assignments of a lawful problem.

ghost use Rattle.eating_laws.specs.Problems.{NoEnvyAmongAlike, RandomAssignmentsAreFeasible};

/// In the assignment of an eating table no agent envies one who is alike: of the first columns of its own list it has at
/// least as much. This holds of every table.
pub fn no_envy_among_alike()
    ensures { NoEnvyAmongAlike }
{}

/// A random assignment of a lawful problem is feasible for the problem's family: it meets the ceilings of the stated sets,
/// whose floors are 0, and the rows, whose floors and ceilings are the demands.
pub fn random_assignments_are_feasible()
    ensures { RandomAssignmentsAreFeasible }
{}
