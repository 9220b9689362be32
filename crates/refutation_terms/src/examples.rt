// What no call decides of a log, tried on small problems: that it is spent, that it is sharp or isn't. What `check`,
// `reduce` and the search for weights decide is tried by them, in `library_tests`, `search_tests` and `program_tests`.
ghost use Rattle.std.specs.Prelude.{◌≡◌};
ghost use Rattle.refutation_terms.specs.Log.{IsSpent, size};
ghost use Rattle.refutation_terms.specs.Sharp.{IsSharp};
ghost use Rattle.refutation_terms.specs.Examples.{from_to, three_of_six, turn_log, open_log, odd_cycle, odd_log, late_dead_log, two_on_day_one, late_day_log, two_in_a_row, late_bound_log, none_wanted, free_split_log};

/// A log whose one split uses up its budget is spent, and has this size. A split with two leaves has three.
pub fn a_log_is_spent()
    ensures spent { IsSpent three_of_six open_log 1 }
    ensures one { size open_log ≡ 1 }
    ensures three { size odd_log ≡ 3 }
{}

/// A dead leaf behind a turn to the scarcest shift that is demanded is sharp.
pub fn a_turn_is_sharp()
    ensures { IsSharp three_of_six turn_log }
{}

/// A log that splits a cell is sharp: neither symbol is spent there, and no leaf holds before.
pub fn a_split_is_sharp()
    ensures { IsSharp (odd_cycle (from_to 0 3)) odd_log }
{}

/// A log isn't sharp that splits where two turns are dead, where a day leaf holds, at the top where a plain bound
/// holds, or on a symbol that isn't spent beside one that is; nor is one without a turn where a shift is demanded.
pub fn blunt_logs_are_not_sharp()
    ensures dead { IsSharp (odd_cycle (from_to 1 3)) late_dead_log → ⊥ }
    ensures day { IsSharp two_on_day_one late_day_log → ⊥ }
    ensures bound { IsSharp two_in_a_row late_bound_log → ⊥ }
    ensures spent { IsSharp none_wanted free_split_log → ⊥ }
    ensures turn { IsSharp three_of_six open_log → ⊥ }
{}
