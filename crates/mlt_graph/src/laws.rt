//! Laws of the definitions: each is the contract of a function that does nothing.

ghost use Rattle.mlt_graph.specs.Operations.{OperationsAreFew};

/// Working out a position of a unit takes at most twice as many operations as the unit weighs.
pub fn operations_are_few()
    ensures { OperationsAreFew }
{}
