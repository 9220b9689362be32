// Vectors of whole numbers, and the two of them between which a part of a mix (a convex combination) is best moved.
ghost use Rattle.std.specs.Prelude.{◌≡◌, ◌<◌, ◌≤◌, length, slice_index, IfSome};

use std::marker::Model;

// Whole numbers, one for each coordinate. Further coordinates are 0.
#[derive(Drop)]
pub struct Vector {
    entries: Vec<i64>,
}

impl Model for Vector {
    ghost use Rattle.std.specs.Prelude.{List, ℤ};

    ghost Value = { List ℤ };

    ghost view = { λ v. v.entries.items };
}

impl Vector {
    // The vector of these numbers.
    pub fn new(entries: Vec<i64>) -> Vector
        ensures { result ≡ entries.items }
    {
        Vector { entries }
    }

    // Its numbers.
    pub fn entries(&self) -> &[i64]
        ensures { result.now ≡ self.now }
    {
        &self.entries
    }
}

// The number at a place, 0 where there is none.
pub fn entry(numbers: &[i64], i: usize) -> i64 {
    numbers.get(i).copied().unwrap_or(0)
}

// The sum of the products, coordinate by coordinate.
pub fn product(a: &[i64], b: &[i64]) -> i64 {
    let mut sum: i64 = 0;
    for (x, y) in a.iter().zip(b.iter()) {
        sum = sum.wrapping_add(x.wrapping_mul(*y));
    }
    sum
}

// The square of the distance of two vectors of as many coordinates.
fn square_distance(a: &[i64], b: &[i64]) -> u64 {
    let mut sum: u64 = 0;
    for (x, y) in a.iter().zip(b.iter()) {
        let apart = x.wrapping_sub(*y).unsigned_abs();
        sum = sum.wrapping_add(apart.wrapping_mul(apart));
    }
    sum
}

// A part to be moved from one vector to another.
#[derive(Clone, Copy, Drop)]
pub struct Move {
    pub gaining: usize,
    pub losing: usize,
    pub amount: u32,
}

// The vector that lies furthest where the mix is to go, by how far each does: the first of these.
pub fn furthest(pulls: &[i64]) -> Option<usize>
    ensures { IfSome result (λ k. k < length pulls.now) }
{
    let mut best: Option<usize> = None;
    let mut greatest = i64::MIN;
    for (k, pull) in pulls.iter().enumerate() {
        if best.is_none() || *pull > greatest {
            best = Some(k);
            greatest = *pull;
        }
    }
    best
}

// The vector that lies nearest of those that have a part: the first of these.
fn nearest_used(parts: &[u32], pulls: &[i64]) -> Option<usize>
    ensures { IfSome result (λ k. k < length parts.now) }
{
    let mut best: Option<usize> = None;
    let mut least = i64::MAX;
    for (k, part) in parts.iter().enumerate() {
        let pull = entry(pulls, k);
        if *part > 0 && (best.is_none() || pull < least) {
            best = Some(k);
            least = pull;
        }
    }
    best
}

// The move from the vector that pulls least, of those that have a part, to the one that pulls most, by the amount that
// brings the mix nearest to where it is to go. None where no amount does.
// Cost: a look at each vector.
pub fn best_move(vectors: &[Vector], parts: &[u32], pulls: &[i64]) -> Option<Move>
    requires { length vectors.now ≡ length parts.now }
    ensures gaining { IfSome result (λ m. m.gaining < length vectors.now) }
    ensures losing { IfSome result (λ m. m.losing < length vectors.now) }
    ensures amount { IfSome result (λ m. m.amount ≤ slice_index parts.now m.losing) }
{
    let gaining = furthest(pulls)?;
    let losing = nearest_used(parts, pulls)?;
    if gaining >= vectors.len() {
        return None;
    }
    let more = entry(pulls, gaining).saturating_sub(entry(pulls, losing));
    let square = square_distance(vectors[gaining].entries(), vectors[losing].entries());
    let useful = more.unsigned_abs().checked_div(square)?;
    let amount = useful.min(u64::from(parts[losing])) as u32;
    if amount == 0 {
        return None;
    }
    Some(Move {
        gaining,
        losing,
        amount,
    })
}
