// Laws of the definitions. Each function's contract is the law.
ghost use Rattle.rwsp_run.specs.Laws.{AnswersAreOne, TextsAreOne, ProblemsAreAnswered, RefutationsAreAccepted, RostersMeet, ReductionsAreAccepted, StaffTextsAreAccepted, BestRostersAreBest, BestRostersMeet, BestProofsAreAccepted, FilledRostersMeet, FillLogsAreAccepted, WorkersMakeNoDifference, RefusalsAreTheReaders, ToldLogsWereJudged, ToldRulesAreNamed, WordsAreOne};

/// What is said of each answer fits no other answer, except those that a search is free to choose. So an answer
/// comes exactly where what is said of it is true: no other can come but want of memory, and a fault that the counts
/// show.
pub fn answers_are_one()
    ensures { AnswersAreOne }
{}

/// An answer has one text.
pub fn texts_are_one()
    ensures { TextsAreOne }
{}

/// An answer and its problem's file have one text of words.
pub fn words_are_one()
    ensures { WordsAreOne }
{}

/// A command over a file that spells a problem has an answer of its own: `plan` a roster, a refutation, or a log that
/// has spent the whole budget.
pub fn problems_are_answered()
    ensures { ProblemsAreAnswered }
{}

/// `explain` says why a problem's file is refused exactly where the reader refuses it.
pub fn refusals_are_the_readers()
    ensures { RefusalsAreTheReaders }
{}

/// What `plan` writes as a refutation is accepted by `check` over the same file.
pub fn refutations_are_accepted()
    ensures { RefutationsAreAccepted }
{}

/// What `plan` writes as a roster meets every rule by `verify` over the same file.
pub fn rosters_meet()
    ensures { RostersMeet }
{}

/// What `reduce` writes is accepted by `check` over the same file.
pub fn reductions_are_accepted()
    ensures { ReductionsAreAccepted }
{}

/// What `staff` writes with a least crew, or with none up to the last size, is accepted by `check-staff` over the same
/// file.
pub fn staff_texts_are_accepted()
    ensures { StaffTextsAreAccepted }
{}

/// What `best` writes as a roster meets every rule by `verify` over the same file, and no other has more free weekends.
pub fn best_rosters_are_best()
    ensures { BestRostersAreBest }
{}

/// What `best` writes as a roster meets every rule by `verify` over the same file, also where it has spent its budget.
pub fn best_rosters_meet()
    ensures { BestRostersMeet }
{}

/// What `best` writes as a proof is accepted by `check-free` over the same file.
pub fn best_proofs_are_accepted()
    ensures { BestProofsAreAccepted }
{}

/// What `fill` writes as a roster meets every rule by `verify` over the same file.
pub fn filled_rosters_meet()
    ensures { FilledRostersMeet }
{}

/// What `fill` writes as a refutation is accepted by `check-fill` over the same file.
pub fn fill_logs_are_accepted()
    ensures { FillLogsAreAccepted }
{}

/// The answer of `check` is the same for every number of workers.
pub fn workers_make_no_difference()
    ensures { WorkersMakeNoDifference }
{}

/// A rule that `plan` tells of, where there is no roster, is one that its log names.
pub fn told_rules_are_named()
    ensures { ToldRulesAreNamed }
{}

/// What `check` and `check-free` tell as judged was judged.
pub fn told_logs_were_judged()
    ensures { ToldLogsWereJudged }
{}
