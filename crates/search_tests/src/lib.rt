//! Tests of the libraries that search for rosters and refutations, and of those that judge and reduce what they find, on
//! the problems of `small_problems`. What a contract says of every input isn't tried again.
#![tactic(auto)]

#[cfg(test)]
mod all_words;
#[cfg(test)]
mod bounds_tests;
#[cfg(test)]
mod clean_words_tests;
#[cfg(test)]
mod demand_counts_tests;
#[cfg(test)]
mod filling_tests;
#[cfg(test)]
mod kept_cycle_tests;
#[cfg(test)]
mod nearest_weights_tests;
#[cfg(test)]
mod propagators_tests;
#[cfg(test)]
mod refutation_checker_tests;
#[cfg(test)]
mod roster_finder_tests;
#[cfg(test)]
mod roster_planner_tests;
#[cfg(test)]
mod roster_search_tests;
#[cfg(test)]
mod rule_reducer_tests;
#[cfg(test)]
mod steady_layer_tests;
#[cfg(test)]
mod weekend_best_tests;
