// Laws of the definitions. Each function's contract is the law.
ghost use Rattle.std.specs.Prelude.{◌≡◌, ◌↔◌, ℕ, Some, Contains, MatchOption};
ghost use Rattle.rwsp_terms.specs.Instance.{Instance};
ghost use Rattle.rwsp_terms.specs.Roster.{IsRule};
ghost use Rattle.rwsp_terms.specs.Rules.{rules, rule_of};
ghost use Rattle.rwsp_terms.specs.declared.data.Rule.{Rule};
ghost use Rattle.rwsp_model.specs.Validity.{IsValid, KeepsLimits, refusal_of};

/// The valid instances are those that keep each limit, in the limits' own words.
pub fn valid_instances_keep_limits()
    ensures { (P : Instance) → IsValid P ↔ KeepsLimits P }
{}

/// An instance is valid, or there is a first reason against it.
pub fn refusals_decide_validity()
    ensures { (P : Instance) → MatchOption (refusal_of P) (IsValid P) (λ e. ¬ IsValid P) }
{}

/// The list of rules holds each rule of the instance, and no other.
pub fn every_rule_is_listed()
    ensures { (P : Instance) (r : Rule) → Contains (rules P) r ↔ IsRule P r }
{}

/// No two numbers are those of one rule.
pub fn rules_have_one_number()
    ensures { (P : Instance) (m n : ℕ) (r : Rule) → rule_of P m ≡ Some r → rule_of P n ≡ Some r → m ≡ n }
{}
