// Demands against those of a second program, written from the definition:
//
//     def demand(number, weeks):
//         state, left, cells = number, 7 * weeks, ''
//         def draw():
//             nonlocal state
//             state = (6364136223846793005 * state + 1442695040888963407) % 2**64
//             return state >> 32
//         while left:
//             days = left if left <= 11 else 6 + draw() % (min(11, left - 6) - 5)
//             least, most = max(2, days - 7), min(4, days - 4)
//             off = least + draw() % (most - least + 1)
//             work = days - off
//             night = 'DDAA' + 'N' * (work - 4) if work >= 6 else 'AA' + 'N' * (work - 2)
//             cells += ['D' * work, 'DD' + 'A' * (work - 2), night][draw() % 3] + '-' * off
//             left -= days
//         return [[cells[day::7].count(shift) for day in range(7)] for shift in 'DAN']
ghost use Rattle.std.specs.Prelude.{◌≤◌};

use made_problems::gen_problem;
use rwsp_model::Problem;
use rwsp_terms::Symbol;
use std::alloc::{AllocError, Global};
use std::test::Fail;

// What is demanded of the shift on each day, in a row.
fn row(alloc: Global, problem: &Problem, shift: u8) -> Result<Vec<i32>, AllocError> {
    let mut demands = Vec::new(alloc);
    for day in 0..problem.days() {
        if 0 < shift && shift <= problem.shifts() {
            demands.push(problem.demand_least(Symbol { number: shift }, day + 1))?;
        }
    }
    Ok(demands)
}

fn sum_of_demands(alloc: Global, number: u32, weeks: u32) -> Result<i32, Fail>
    requires { (1 ≤ weeks) × (weeks ≤ 600) }
{
    let problem = gen_problem(alloc, number, weeks)?;
    let mut sum = 0i32;
    for shift in 1..4u8 {
        for demand in &row(alloc, &problem, shift)? {
            sum = sum.checked_add(*demand).ok_or("a sum that fits")?;
        }
    }
    Ok(sum)
}

#[test]
fn sums_of_demands(rt: HostRuntime) -> Result<(), Fail> {
    let cases: [(u32, [i32; 10]); 4] = [
        (1, [5, 5, 4, 5, 5, 4, 5, 5, 4, 5]),
        (2, [8, 8, 9, 9, 8, 10, 9, 9, 8, 8]),
        (9, [43, 41, 42, 41, 40, 40, 41, 43, 40, 39]),
        (
            600,
            [2718, 2739, 2716, 2711, 2725, 2698, 2709, 2716, 2686, 2730],
        ),
    ];
    for (weeks, sums) in cases {
        if weeks < 1 || weeks > 600 {
            continue;
        }
        for (number, sum) in sums.iter().enumerate() {
            let number = u32::try_from(number).ok().ok_or("a small number")?;
            assert_eq!(rt; sum_of_demands(rt.alloc(), number, weeks)?, *sum);
        }
    }
    Ok(())
}

// Whether the problem of a number has so many weeks, and these rows of demands.
fn has_rows(alloc: Global, number: u32, weeks: u32, rows: &[[i32; 7]; 3]) -> Result<bool, Fail>
    requires { (1 ≤ weeks) × (weeks ≤ 600) }
{
    let problem = gen_problem(alloc, number, weeks)?;
    for (i, wanted) in rows.iter().enumerate() {
        let shift = u8::try_from(i + 1).ok().ok_or("a small number")?;
        if row(alloc, &problem, shift)?.as_slice() != wanted.as_slice() {
            return Ok(false);
        }
    }
    Ok(problem.weeks() == weeks)
}

const ROWS: [(u32, u32, [[i32; 7]; 3]); 3] = [
    (
        0,
        1,
        [
            [1, 1, 0, 0, 0, 0, 0],
            [0, 0, 1, 1, 1, 0, 0],
            [0, 0, 0, 0, 0, 0, 0],
        ],
    ),
    (
        7,
        12,
        [
            [6, 5, 6, 7, 5, 2, 3],
            [1, 4, 3, 1, 1, 2, 2],
            [1, 1, 1, 2, 2, 0, 0],
        ],
    ),
    (
        999_999_999,
        2,
        [
            [2, 1, 0, 0, 0, 0, 1],
            [0, 1, 2, 1, 0, 0, 0],
            [0, 0, 0, 1, 1, 0, 0],
        ],
    ),
];

#[test]
fn rows_of_demands(rt: HostRuntime) -> Result<(), Fail> {
    for (number, weeks, rows) in &ROWS {
        let is_known = 1 <= *weeks && *weeks <= 600 && has_rows(rt.alloc(), *number, *weeks, rows)?;
        assert!(rt; is_known, "{number}");
    }
    Ok(())
}
