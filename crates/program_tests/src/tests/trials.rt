// Trials: what is printed for a number and a count of weeks.
use super::logs::they_meet;
use super::plans::printed;
use super::{ends, outcome_of, shelf_of, words_of};
use clean_words::NoGate;
use made_problems::gen_problem;
use refutation_log::Found;
use rwsp_file::print_problem;
use rwsp_run::{Answer, Outcome};
use std::test::Fail;
use test_helpers::MemorySink;

const ONE_WEEK: &str =
    "7\n1\n3\n1 1 0 0 0 0 0\n0 0 1 1 1 0 0\n0 0 0 0 0 0 0\nD 360 480 2 7\nA 840 480 2 6\nN 1320 480 2 5\n2 4\n4 7\n3 0\nN D\nN A\nA D\n";

// The first problem of one week has one roster.
#[test]
fn the_first_problem_of_one_week(rt: HostRuntime) -> Result<(), Fail> {
    let alloc = rt.alloc();
    let problem = gen_problem(alloc, 0, 1)?;
    assert_eq!(rt;
        print_problem(alloc, &problem)?.as_slice(),
        ONE_WEEK.as_bytes()
    );
    let text = "number 0 weeks 1 days 7 shifts 3 demand 5\nanswer roster bytes 14\n";
    assert!(rt; ends(&rt, alloc, &["trial", "0", "1"], &[], 0, text)?);
    assert!(rt; ends(&rt, alloc, &["trial", "000", "01"], &[], 0, text)?);
    assert!(rt;
        ends(
            &rt,
            alloc,
            &["plan", "F"],
            &[("F", ONE_WEEK)],
            0,
            "D D A A A - -\n"
        )?
    );
    Ok(())
}

// The same numbers print the same, twice; the demand is that of a second program.
#[test]
fn a_trial_is_repeated(rt: HostRuntime) -> Result<(), Fail> {
    let alloc = rt.alloc();
    let words = ["trial", "7", "12"];
    let first = printed(&rt, alloc, &words, "", 0)?;
    let again = printed(&rt, alloc, &words, "", 0)?;
    assert!(rt;
        first
            .as_str()
            .starts_with("number 7 weeks 12 days 7 shifts 3 demand 55\nanswer ")
    );
    assert_eq!(rt; again.as_str(), first.as_str());
    Ok(())
}

// What is found is kept in the answer.
#[test]
fn a_trial_is_answered(rt: HostRuntime) -> Result<(), Fail> {
    let alloc = rt.alloc();
    let words = words_of(alloc, &["trial", "0", "1"])?;
    let mut shelf = shelf_of(alloc, &[], 50, &[])?;
    let mut sink = MemorySink::new(alloc, 1000, 100, Vec::new(alloc))?;
    let mut told = MemorySink::new(alloc, 0, 1, Vec::new(alloc))?;
    let outcome = outcome_of(
        &rt, alloc, &words, &mut shelf, &mut sink, &mut told, &NoGate,
    );
    let is_found = match &outcome {
        Outcome::Done(Answer::Trial(trial)) => {
            trial.number == 0 && trial.weeks == 1 && matches!(&trial.found, Found::Roster(_))
        }
        _ => false,
    };
    drop(outcome);
    assert!(rt; is_found);
    Ok(())
}

// The bounds at the top are tried by several workers, as for `plan`.
#[test]
fn bounds_of_a_trial_are_shared_out(rt: HostRuntime) -> Result<(), Fail> {
    assert!(rt; they_meet(&rt, rt.alloc(), &["trial", "0", "1"], &[], 0)?);
    Ok(())
}
