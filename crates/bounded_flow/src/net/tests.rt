// What no contract says: a net is made, and it is rounded the same again and from no whole units on.
// Tests of whole runs have the pieces of worked matrices.
ghost use Rattle.std.specs.Prelude.{◌≡◌, ◌+◌, ◌≤◌, ◌^◌, ◌⊎◌, ◌∷◌, [], All, length, map, IfOk, OnOk};
ghost use Rattle.definitions.specs.Sets.{cell_of, IsBefore};
ghost use Rattle.bounded_flow.specs.Edges.{IsSound, rest_of, wire};

use super::*;
use crate::repair::rank;
use quota_sets::QuotaSet;
use std::test::Fail;

fn cell(agent: u32, object: u32) -> Cell
    ensures { result ≡ cell_of agent object }
{
    Cell { agent, object }
}

// Two cells as a set.
fn pair(alloc: Global, side: u8, first: Cell, second: Cell) -> Result<QuotaSet, AllocError>
    requires side { (side ≡ 1) ⊎ (side ≡ 2) }
    requires order { IsBefore first second }
    ensures { IfOk result (λ set. set ≡ record { side = side; floor = 1; ceiling = 1; cells = first ∷ second ∷ [] }) }
{
    Ok(QuotaSet::new(side, 1, 1, vec![in alloc; first, second]?))
}

// The rows and columns of two agents and two objects.
fn two_by_two(alloc: Global) -> Result<Family, Fail>
    ensures { IfOk result (λ f. (f.agents ≡ 2) × (f.columns ≡ 2) × (length f.sets ≡ 4)) }
{
    let mut family = Family::new(alloc, 2, 2);
    family.insert(pair(alloc, 1, cell(0, 0), cell(0, 1))?)?;
    family.insert(pair(alloc, 1, cell(1, 0), cell(1, 1))?)?;
    family.insert(pair(alloc, 2, cell(0, 0), cell(1, 0))?)?;
    family.insert(pair(alloc, 2, cell(0, 1), cell(1, 1))?)?;
    Ok(family)
}

// A net of two agents and two objects with one half in each cell.
fn halves(alloc: Global) -> Result<Net, Fail>
    ensures { IfOk result (λ net. (net.agents ≡ 2) × (net.columns ≡ 2) × (length net.sets ≡ 4) × (net.left ≡ 2)) }
{
    let family = two_by_two(alloc)?;
    let trees = Trees::of(alloc, &family)?;
    let x = Scaled::new(2, 2, 2, vec![in alloc; 1, 1, 1, 1]?);
    Ok(Net::of(alloc, &trees, &family, &x)?)
}

// Rounds, and takes the whole matrix off with the greatest weight.
fn take_one(net: &mut Net) -> u128
    requires { 1 ≤ net.old.left }
    ensures left { net.new.left + result ≡ net.old.left }
    ensures one { 1 ≤ result }
    ensures same { (net.new.agents ≡ net.old.agents) × (net.new.columns ≡ net.old.columns) × (net.new.sets ≡ net.old.sets) }
{
    net.round();
    let weight = net.greatest_weight();
    net.take(weight);
    weight
}

// The whole units of the four cells, row by row.
fn wholes(net: &Net) -> [u32; 4]
    requires agents { net.now.agents ≡ 2 }
    requires columns { net.now.columns ≡ 2 }
{
    let top = [net.whole(cell(0, 0)), net.whole(cell(0, 1))];
    [top[0], top[1], net.whole(cell(1, 0)), net.whole(cell(1, 1))]
}

#[test]
fn round_twice_is_round_once(rt: HostRuntime) -> Result<(), Fail> {
    let mut net = halves(rt.alloc())?;
    net.round();
    let once = wholes(&net);
    net.round();
    assert_eq!(rt; wholes(&net), once);
    Ok(())
}

// An edge with no whole units, as a net begins with.
fn empty(edge: &mut Edge, left: u128)
    requires sound { IsSound left edge.old }
    requires limit { left ≤ 2 ^ 116 }
    ensures sound { IsSound left edge.new }
    ensures rest { rest_of left edge.new ≡ rest_of left edge.old }
    ensures wire { wire edge.new ≡ wire edge.old }
    ensures whole { edge.new.whole ≡ 0 }
{
    edge.under = edge.rest(left);
    edge.over = 0;
    edge.whole = 0;
}

// Takes all whole units off the edges.
fn reset(edges: &mut [Edge], left: u128)
    requires sound { All (IsSound left) edges.old }
    requires limit { left ≤ 2 ^ 116 }
    ensures sound { All (IsSound left) edges.new }
    ensures rests { map (rest_of left) edges.new ≡ map (rest_of left) edges.old }
    ensures wires { map wire edges.new ≡ map wire edges.old }
    ensures whole { All (λ e. e.whole ≡ 0) edges.new }
{
    for index in 0..edges.len() {
        empty(&mut edges[index], left);
    }
}

// Rounds from no whole units on.
fn round_cold(alloc: Global, net: &mut Net) -> Result<(), AllocError>
    requires { 1 ≤ net.old.left }
    ensures { OnOk result ((net.new.agents ≡ net.old.agents) × (net.new.columns ≡ net.old.columns)) }
{
    let mut edges = net.edges.to_vec(alloc)?;
    reset(&mut edges, net.left);
    let adjacency = adjacency_of(alloc, &edges, net.sets.len() as u32 + 1)?;
    net.adjacency = adjacency;
    rank(&edges, &mut net.gaps);
    net.edges = edges;
    net.round();
    Ok(())
}

#[test]
fn cold_as_warm(rt: HostRuntime) -> Result<(), Fail> {
    let mut warm = halves(rt.alloc())?;
    let mut cold = halves(rt.alloc())?;
    assert_eq!(rt; take_one(&mut warm), 1);
    assert_eq!(rt; take_one(&mut cold), 1);
    assert_eq!(rt; wholes(&cold), wholes(&warm));

    warm.round();
    round_cold(rt.alloc(), &mut cold)?;
    assert_eq!(rt; wholes(&cold), wholes(&warm));
    Ok(())
}
