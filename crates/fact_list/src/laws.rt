//! Laws of facts, each the contract of a function that does nothing.

ghost use Rattle.fact_list.specs.Scoped.{ScopedFactsMove};
ghost use Rattle.fact_list.specs.Truth.{DeclaredFactsHold, ListedFactsHold};

/// Well scoped facts meet the condition on moved variables of `Facts::list` and of the calls above it.
pub fn scoped_facts_move()
    ensures { ScopedFactsMove }
{}

/// Where the sizes are within their bounds and the assumes and the path hold, the declared facts do.
pub fn declared_facts_hold()
    ensures { DeclaredFactsHold }
{}

/// Where the declared facts hold, each fact of the list does.
pub fn listed_facts_hold()
    ensures { ListedFactsHold }
{}
