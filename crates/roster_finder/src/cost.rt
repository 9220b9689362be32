// Sums and products of costs.
//
// Costs only say which of two words is the better one. None comes near 64 bits: a word has some thousand days, a day
// costs less than 2^40, and weights that grow are raised by one at a time. No proof says so. One that did would stop at
// the greatest or the least number; that gives a worse word, and never a wrong answer, since each roster is checked at
// the end.

pub(crate) fn plus(cost: i64, other: i64) -> i64 {
    cost.saturating_add(other)
}

pub(crate) fn minus(cost: i64, other: i64) -> i64 {
    cost.saturating_sub(other)
}

pub(crate) fn times(cost: i64, factor: i64) -> i64 {
    cost.saturating_mul(factor)
}
