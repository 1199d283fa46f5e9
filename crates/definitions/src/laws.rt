//! Laws on the definitions: each is the contract of a function that does nothing.

ghost use Rattle.definitions.specs.Firsts.{FirstFaultLaw, FirstInLaw};
ghost use Rattle.definitions.specs.Laws.{LimitsOfAProblem, PieceOfTicket};

/// The fault that is found from the left is the first one: of records of any type `R`, with any kinds of fault `K`.
pub fn first_fault_law<R, K>()
    ensures { FirstFaultLaw R K }
{}

/// The finding at the least place is what is found from the left, and nothing is found exactly where no place has one.
pub fn first_in_law<F>()
    ensures { FirstInLaw F }
{}

/// The limits of a lawful problem are its stated sets by number, and then, agent by agent in list order, a limit of one unit for
/// each capped cell. A cell is capped exactly where one of these later limits is that cell alone.
pub fn limits_of_a_problem()
    ensures { LimitsOfAProblem }
{}

/// A ticket below the sum of the weights names the piece whose weight it falls on: the weights before that one add up to at most
/// the ticket, and with it to more. There is one such weight.
pub fn piece_of_ticket()
    ensures { PieceOfTicket }
{}
