// Laws of the trees and the logs that a search ends with. Each function's contract is the law, and specs/Laws.antt
// states it.
ghost use Rattle.roster_search.specs.Laws.{TreesHaveFewLeaves, SpentBudgetsAreSmall};

/// A finished tree whose splits aren't idle has at most as many leaves as there are ways to put a symbol into each cell.
pub fn trees_have_few_leaves()
    ensures { TreesHaveFewLeaves }
{}

/// A budget of twice the number of all rosters is never spent.
pub fn spent_budgets_are_small()
    ensures { SpentBudgetsAreSmall }
{}
