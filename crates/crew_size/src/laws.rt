// Laws of staff texts and of the runs that they are printed of. Each function's contract is the law.
ghost use Rattle.crew_size.specs.Laws.{AcceptedTextsDecide, SearchesDecide, SearchesAgree, EnoughBudgetDecides, PrintedRunsAreAccepted, StaffTextsHaveOneVerdict, LogsAreCutWhole};

/// An accepted text that ends in a roster means that its weeks have a roster, and that no smaller number from the
/// first on has one; one that ends without means that none of its numbers has one.
pub fn accepted_texts_decide()
    ensures { AcceptedTextsDecide }
{}

/// What a search gives with a roster, or with refutations alone, means the same.
pub fn searches_decide()
    ensures { SearchesDecide }
{}

/// Two searches of the same numbers of weeks that decide say the same, whatever their budgets.
pub fn searches_agree()
    ensures { SearchesAgree }
{}

/// A search decides where the budget is enough for all assignments.
pub fn enough_budget_decides()
    ensures { EnoughBudgetDecides }
{}

/// What is printed of a search that decides is accepted.
pub fn printed_runs_are_accepted()
    ensures { PrintedRunsAreAccepted }
{}

/// A staff text has one verdict at most, for each valid problem. So what is printed of a search that decides has no
/// other verdict.
pub fn staff_texts_have_one_verdict()
    ensures { StaffTextsHaveOneVerdict }
{}

/// No line of a log that fits begins as a heading does, so a section is cut off where its log ends.
pub fn logs_are_cut_whole()
    ensures { LogsAreCutWhole }
{}
