// Laws of the definitions. Each function's contract is the law.
ghost use Rattle.ways_out.specs.Agreement.{AllWaysAgree};
ghost use Rattle.ways_out.specs.Laws.{RostersStay, RostersStayFurther, OtherRulesStay, ChangesAreListed};

/// A roster of a problem is one of it loosened, and a roster of it loosened is one of it loosened further.
pub fn rosters_stay()
    ensures loosened { RostersStay }
    ensures further { RostersStayFurther }
{}

/// A roster of a problem loosened meets every rule of the problem but the one that is changed.
#[tactic(auto, using(crate::proofs::Staying::other_rules_stay))]
pub fn other_rules_stay()
    ensures { OtherRulesStay }
{}

/// All changes of a problem are listed, and no other.
#[tactic(auto, using(crate::proofs::AllChanges::changes_are_listed))]
pub fn changes_are_listed()
    ensures { ChangesAreListed }
{}

/// Two answers to the ways out of a problem, whatever their efforts and how many workers there were, are no roster
/// beside a refutation; and where neither left anything open they say the same of each change.
pub fn ways_agree()
    ensures { AllWaysAgree }
{}
