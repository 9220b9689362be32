// Laws of the definitions. Each function's contract is the law.
ghost use Rattle.made_problems.specs.Laws.{StintsAreUsual, HiddenRostersMeet, EachNumberHasOneProblem};
ghost use Rattle.made_problems.specs.RestLaws.{RostersRest, SequencesAreThose};

/// Each stint has 4 to 7 days of work and 2 to 4 days off.
pub fn stints_are_usual()
    ensures { StintsAreUsual }
{}

/// The hidden roster meets every rule of its problem round the whole cycle. So a generated problem has a roster.
pub fn hidden_rosters_meet()
    ensures { HiddenRostersMeet }
{}

/// A number and a count of weeks have one problem.
pub fn each_number_has_one_problem()
    ensures { EachNumberHasOneProblem }
{}

/// Each roster that meets all rules of a problem with a least rest has it between the end of a shift and the start of
/// the next within two days.
#[tactic(auto, using(crate::proofs::Resting::rosters_rest))]
pub fn rosters_rest()
    ensures { RostersRest }
{}

/// A sequence is forbidden exactly where the file forbids it, or it is of two shifts that are too close, on the next
/// day or over a day off.
#[tactic(auto, using(crate::proofs::Sequences::sequences_are_those))]
pub fn sequences_are_those()
    ensures { SequencesAreThose }
{}
