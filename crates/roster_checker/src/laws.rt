// Laws of the definitions. Each function's contract is the law.
ghost use Rattle.std.specs.Prelude.{◌≡◌, List};
ghost use Rattle.rwsp_terms.specs.Instance.{Instance};
ghost use Rattle.rwsp_terms.specs.Roster.{MeetsAll};
ghost use Rattle.rwsp_terms.specs.declared.data.Symbol.{Symbol};
ghost use Rattle.roster_checker.specs.FirstBroken.{IsFirstBroken};
ghost use Rattle.roster_checker.specs.declared.broken.Broken.{Broken};

/// A roster breaks at most one rule first, and in one place.
pub fn first_broken_rule_is_unique()
    ensures { (P : Instance) (s : List Symbol) (a b : Broken) → IsFirstBroken P s a → IsFirstBroken P s b → a ≡ b }
{}

/// A roster that breaks a rule first does not meet all rules.
pub fn first_broken_rule_is_not_met()
    ensures { (P : Instance) (s : List Symbol) (b : Broken) → IsFirstBroken P s b → MeetsAll P s → ⊥ }
{}
