// The demand as a box: for each day and symbol, the least and the greatest number of weeks, and for free weekends.
use rwsp_model::Problem;
use rwsp_terms::Symbol;
use std::alloc::{AllocError, Global};

// The days of a week and the number of symbols, by which each day and symbol has a coordinate.
#[derive(Clone, Copy, Drop)]
pub struct Shape {
    pub days: u32,
    pub symbols: u32,
    pub cells: u32,
}

impl Shape {
    // The shape of the problem.
    pub fn of(problem: &Problem) -> Shape {
        Shape {
            days: problem.days(),
            symbols: u32::from(problem.shifts()) + 1,
            cells: problem.cells(),
        }
    }

    // How many coordinates there are for days and symbols. The one behind them is that of free weekends.
    pub fn size(self) -> usize {
        self.days.wrapping_mul(self.symbols) as usize
    }

    // Whether a weekend ends at a place, counted from 0 over any number of turns.
    pub fn ends_weekend(self, place: u32) -> bool {
        self.days == 7 && place % 7 == 6
    }

    // The coordinate of symbol 0 on the day of the week in which a place lies, counted from 0 over any number of turns.
    pub fn day_start(self, place: u32) -> usize {
        let column = place.checked_rem(self.days).unwrap_or(0);
        column.wrapping_mul(self.symbols) as usize
    }
}

// The least and the greatest number of weeks, for each coordinate.
#[derive(Drop)]
pub struct Demand {
    pub low: Vec<i64>,
    pub high: Vec<i64>,
}

impl Demand {
    // The demand of the problem, and with a goal a least number of free weekends.
    pub fn of(alloc: Global, problem: &Problem, goal: Option<u32>) -> Result<Demand, AllocError> {
        let mut low = Vec::new(alloc);
        let mut high = Vec::new(alloc);
        for i in 0..problem.days() {
            for number in 0..problem.shifts() + 1 {
                let x = Symbol { number };
                low.push(i64::from(problem.demand_least(x, i + 1)))?;
                high.push(i64::from(problem.demand_greatest(x, i + 1)))?;
            }
        }
        if let Some(goal) = goal {
            low.push(i64::from(goal))?;
            high.push(i64::from(problem.weeks().max(goal)))?;
        }
        Ok(Demand { low, high })
    }

    // What a roster that meets the demand weighs at least.
    pub fn total(&self, weights: &[i64]) -> i64 {
        let mut sum: i64 = 0;
        let ends = self.low.iter().zip(self.high.iter());
        for (weight, (low, high)) in weights.iter().zip(ends) {
            let least = weight.wrapping_mul(*low).min(weight.wrapping_mul(*high));
            sum = sum.wrapping_add(least);
        }
        sum
    }
}

// Each number times `turns`.
pub fn times(alloc: Global, numbers: &[i64], turns: u32) -> Result<Vec<i64>, AllocError> {
    let mut products = Vec::new(alloc);
    for number in numbers {
        products.push(number.wrapping_mul(i64::from(turns)))?;
    }
    Ok(products)
}
