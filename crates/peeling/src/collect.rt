//! All pieces of a decomposition in a list.

ghost use Rattle.std.specs.Prelude.{◌≡◌, ℕ, ◌+◌, ◌*◌, ◌<◌, ◌==◌, ◌++◌, [], ◌∷◌, List, IfOk, OnOk, IsSome, Some, if◌then◌else◌};
ghost use Rattle.definitions.specs.Gives.{gives_of};
ghost use Rattle.peeling.specs.Peelers.{AreGivesBefore, ArePiecesOf, IsLater, pieces_value};

use crate::peeler::Peeler;
use quota_sets::{Cell, Give, NoMemory, Piece, Pieces};
use std::alloc::{AllocError, Global};

// Adds what one cell gives, if that is anything.
fn add_give(give: Give, gives: &mut Vec<Give>) -> Result<(), AllocError>
    ensures { OnOk result (gives.new.items ≡ gives.old.items ++ (if give.count == 0 then [] else give ∷ [])) }
{
    if give.count > 0 {
        gives.push(give)?;
    }
    Ok(())
}

// Adds what the cells of an agent's row give, column by column.
fn add_row(peeler: &Peeler, agent: u32, gives: &mut Vec<Give>) -> Result<(), AllocError>
    requires given { IsSome peeler.now.piece }
    requires agent { agent < peeler.now.agents }
    requires before { AreGivesBefore peeler.now (agent * peeler.now.columns) gives.old.items }
    ensures { OnOk result (AreGivesBefore peeler.now ((agent + 1) * peeler.now.columns) gives.new.items) }
{
    for object in 0..peeler.columns() {
        let count = peeler.piece(Cell { agent, object });
        add_give(
            Give {
                agent,
                object,
                count,
            },
            gives,
        )?;
    }
    Ok(())
}

// What the piece last given gives, by agent and then column.
fn collect_gives(alloc: Global, peeler: &Peeler) -> Result<Vec<Give>, AllocError>
    requires { IsSome peeler.now.piece }
    ensures { IfOk result (λ gives. (m : List ℕ) → peeler.now.piece ≡ Some m → gives.items ≡ gives_of peeler.now.columns m) }
{
    let mut gives = Vec::new(alloc);
    for agent in 0..peeler.agents() {
        add_row(peeler, agent, &mut gives)?;
    }
    Ok(gives)
}

/// The pieces that are still to come, in order. The peeler has given all of them then. `NoMemory` may come at any piece,
/// with those up to it given.
pub fn all_pieces(alloc: Global, peeler: &mut Peeler) -> Result<Pieces, NoMemory>
    ensures pieces { IfOk result (λ ps. ArePiecesOf peeler.old (pieces_value ps)) }
    ensures finished { OnOk result (peeler.new.left ≡ 0) }
    ensures later { IsLater peeler.old peeler.new }
{
    let mut list = Vec::new(alloc);
    while let Some(weight) = peeler.next() {
        let Ok(gives) = collect_gives(alloc, peeler) else {
            return Err(NoMemory);
        };
        if list.push(Piece { weight, gives }).is_err() {
            return Err(NoMemory);
        }
    }
    Ok(Pieces { list })
}
