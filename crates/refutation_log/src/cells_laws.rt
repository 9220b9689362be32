// Laws of the texts of given cells. Each function's contract is the law, and specs/CellsLaws.antt states it.
ghost use Rattle.refutation_log.specs.CellsLaws.{TextGivesOneList, RefusalsDecideCells, SpelledAreGiven};

/// A text spells one list of given cells at most.
pub fn text_gives_one_list()
    ensures { TextGivesOneList }
{}

/// A text that isn't refused spells given cells, and one that is refused spells none.
pub fn refusals_decide_cells()
    ensures { RefusalsDecideCells }
{}

/// What a text spells are cells of the problem, in order.
pub fn spelled_are_given()
    ensures { SpelledAreGiven }
{}
