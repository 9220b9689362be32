//! `run`, the one call that answers a command line: it reads the files, has the command do its job and writes the
//! answer.
#![tactic(auto)]

mod answer;
mod explained;
mod inputs;
mod jobs;
mod laws;
mod reply;
mod told;
mod top_call;

pub use answer::{Answer, Outcome, Refusal, Unfit};
pub use jobs::JobAnswer;
pub use laws::{
    answers_are_one, best_proofs_are_accepted, best_rosters_are_best, best_rosters_meet,
    fill_logs_are_accepted, filled_rosters_meet, problems_are_answered, reductions_are_accepted,
    refusals_are_the_readers, refutations_are_accepted, rosters_meet, staff_texts_are_accepted,
    texts_are_one, told_logs_were_judged, told_rules_are_named, words_are_one,
    workers_make_no_difference,
};
pub use top_call::run;
