//! Tests of the libraries that read, print and judge what is given, and of those that make it, on the problems of
//! `small_problems`. What a contract says of every input isn't tried again.
#![tactic(auto)]

#[cfg(test)]
mod crew_calendar_tests;
#[cfg(test)]
mod fill_check_tests;
#[cfg(test)]
mod given_cells_tests;
#[cfg(test)]
mod hull_tests;
#[cfg(test)]
mod made_problems_tests;
#[cfg(test)]
mod plain_words_tests;
#[cfg(test)]
mod refutation_log_tests;
#[cfg(test)]
mod refutation_terms_tests;
#[cfg(test)]
mod roster_checker_tests;
#[cfg(test)]
mod roster_print_tests;
#[cfg(test)]
mod rule_automaton_tests;
#[cfg(test)]
mod rwsp_file_tests;
#[cfg(test)]
mod rwsp_io_tests;
#[cfg(test)]
mod rwsp_model_tests;
#[cfg(test)]
mod rwsp_terms_tests;
#[cfg(test)]
mod rwsp_text_tests;
#[cfg(test)]
mod word_tests;
