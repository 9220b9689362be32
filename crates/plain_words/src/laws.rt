// Laws of the definitions. Each function's contract is the law.
ghost use Rattle.plain_words.specs.Laws.{RulesAreSaidOnce, CountedAreLeaves, NamedRulesAreSaid, CitedDaysAreFound, CountedAreLeavesOf, BrokenDaysAreTold};

/// Each rule is said once, in the order of their numbers.
#[tactic(auto, using(crate::proofs::Sentences::rules_are_said_once))]
pub fn rules_are_said_once()
    ensures { RulesAreSaidOnce }
{}

/// What is counted of a symbol is said exactly where its leaf of blocks holds.
pub fn counted_are_leaves()
    ensures { CountedAreLeaves }
{}

/// The rules in what is said of a refutation are those that it names, in order, once each.
#[tactic(auto, using(crate::proofs::SaidLaws::named_rules_are_said))]
pub fn named_rules_are_said()
    ensures { NamedRulesAreSaid }
{}

/// Of the rule of a turn's day only the turn is told exactly where no line of the log rests on that rule.
#[tactic(auto, using(crate::proofs::CitedDays::cited_days))]
pub fn cited_days_are_found()
    ensures { CitedDaysAreFound }
{}

/// What is said to be counted is a leaf of the log, and holds.
pub fn counted_are_leaves_of()
    ensures { CountedAreLeavesOf }
{}

/// Where a roster doesn't meet the demand of a day, it is told of which symbol there are too many or too few.
pub fn broken_days_are_told()
    ensures { BrokenDaysAreTold }
{}
