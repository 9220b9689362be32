// The search for the most free weekends by itself.
use refutation_log::BestFound;
use roster_checker::free_weekends;
use roster_planner::{Effort, best};
use rwsp_model::Problem;
use std::alloc::Global;
use std::test::Fail;
use test_helpers::{LONG_BLOCKS, problem_of};

// How many free weekends the best roster has, and the goal of the log that says that none has more.
fn most_free(alloc: Global, problem: &Problem) -> Result<Option<(u32, Option<u32>)>, Fail> {
    if problem.days() != 7 {
        return Err(Fail::from("no week of seven days"));
    }
    let effort = Effort {
        budget: 2_000,
        counts: true,
    };
    match best(alloc, problem, effort)? {
        BestFound::Best { roster, proof } => {
            Ok(Some((free_weekends(problem, &roster), proof.goal())))
        }
        _ => Ok(None),
    }
}

#[test]
fn one_weekend_of_three_is_free(rt: HostRuntime) -> Result<(), Fail> {
    let problem = problem_of(rt.alloc(), LONG_BLOCKS)?;
    assert_eq!(rt; most_free(rt.alloc(), &problem)?, Some((1, Some(2))));
    Ok(())
}
