// The hull of vectors, with a mix of them that comes nearer to a box.
ghost use Rattle.std.specs.Prelude.{◌≡◌, ℕ, ◌+◌, ◌<◌, ◌≤◌, List, [], ◌∷◌, ◌++◌, length, sum, IfOk, OnOk, OnErr, IsTrue, ◌↔◌, Contains, IfSome, IfNone, slice_index, slice_get, Some, None, remove, All, ◌≢◌};
ghost use Rattle.clean_words.specs.Hull.{first_part};

use crate::corner::{Move, Vector, best_move, product};
use std::alloc::{AllocError, Global};
use std::marker::Model;

/// The parts of a mix sum to this: so a part is a whole number of about millionths.
pub const SCALE: u32 = 1 << 20;

/// Vectors of whole numbers and a mix of them (a convex combination), which comes nearer to a box step by step.
///
/// The mix is the sum of the vectors, each times its part; so it is `SCALE` times a point of their hull, as long as
/// the parts sum to `SCALE`. The box has a least and a greatest number for each coordinate.
///
/// Each step moves a part to the vector that lies furthest toward the box from the one that lies least so, of those
/// that have a part (B. Mitchell, V. Dem'yanov, V. Malozemov, 1974). Where the hull has too many corners to write out,
/// its furthest corner is pushed before each descent; this finds the nearest point of that hull, or a plane between it
/// and the box (column generation).
#[derive(Drop)]
pub struct Hull {
    // The ends of the box, times `SCALE`.
    low: Vec<i64>,
    high: Vec<i64>,
    vectors: Vec<Vector>,
    parts: Vec<u32>,
    mix: Vec<i64>,
    // What leads from the mix to the nearest point of the box.
    off: Vec<i64>,
    // How far each vector lies in that direction, as last measured.
    pulls: Vec<i64>,
}

impl Model for Hull {
    ghost use Rattle.clean_words.specs.Hull.{Mix};

    ghost Value = { Mix };

    ghost view = { λ h. record { vectors = h.vectors.items; parts = h.parts.items } };

    ghost use Rattle.std.specs.Prelude.{◌≡◌, length};

    ghost invariant = { λ h. length h.parts.items ≡ length h.vectors.items };
}

impl Hull {
    /// No vectors yet, and the box with these least and greatest numbers, one of each for each coordinate.
    pub fn new(alloc: Global, low: Vec<i64>, high: Vec<i64>) -> Result<Hull, AllocError>
        ensures vectors { IfOk result (λ h. h.vectors ≡ []) }
        ensures parts { IfOk result (λ h. h.parts ≡ []) }
    {
        let mix = vec![in alloc; 0i64; low.len()]?;
        let off = vec![in alloc; 0i64; low.len()]?;
        Ok(Hull {
            low: scaled(alloc, &low)?,
            high: scaled(alloc, &high)?,
            vectors: Vec::new(alloc),
            parts: Vec::new(alloc),
            mix,
            off,
            pulls: Vec::new(alloc),
        })
    }

    /// How many vectors there are.
    pub fn count(&self) -> usize
        ensures vectors { result ≡ length self.now.vectors }
        ensures parts { result ≡ length self.now.parts }
    {
        self.vectors.len()
    }

    /// A vector.
    pub fn vector(&self, k: usize) -> &[i64]
        requires { k < length self.now.vectors }
        ensures { slice_get self.now.vectors k ≡ Some result.now }
    {
        self.vectors[k].entries()
    }

    /// The vectors' parts.
    pub fn parts(&self) -> &[u32]
        ensures parts { result.now ≡ self.now.parts }
        ensures count { length result.now ≡ length self.now.vectors }
    {
        &self.parts
    }

    /// What leads from the mix to the nearest point of the box, a number for each coordinate: 0 everywhere where the
    /// mix lies in the box, and where there is no vector.
    pub fn off(&self) -> &[i64] {
        &self.off
    }

    /// Whether the vector is there already. Cost: a pass over all vectors.
    pub fn contains(&self, vector: &[i64]) -> bool
        ensures { IsTrue result ↔ Contains self.now.vectors vector.now }
    {
        is_among(&self.vectors, vector)
    }

    /// One vector more: the first is the whole mix, and each further one has no part of it.
    pub fn push(&mut self, vector: Vec<i64>) -> Result<(), AllocError>
        ensures vectors { OnOk result (self.new.vectors ≡ self.old.vectors ++ vector.items ∷ []) }
        ensures parts { OnOk result (self.new.parts ≡ self.old.parts ++ first_part self.old.parts ∷ []) }
        ensures kept { OnErr result (self.new ≡ self.old) }
    {
        let part = if self.parts.is_empty() { SCALE } else { 0 };
        self.push_part(vector, part)
    }

    /// One vector more with this part of the mix.
    pub fn push_part(&mut self, vector: Vec<i64>, part: u32) -> Result<(), AllocError>
        ensures vectors { OnOk result (self.new.vectors ≡ self.old.vectors ++ vector.items ∷ []) }
        ensures parts { OnOk result (self.new.parts ≡ self.old.parts ++ part ∷ []) }
        ensures kept { OnErr result (self.new ≡ self.old) }
    {
        self.pulls.push(0)?;
        self.parts.push(part)?;
        add(&mut self.mix, &vector, part);
        if self.vectors.push(Vector::new(vector)).is_err() {
            self.parts.pop();
            return Err(AllocError);
        }
        aim(&mut self.off, &self.mix, &self.low, &self.high);
        Ok(())
    }

    /// Brings the mix nearer to the box by at most `steps` steps; fewer where no step brings it nearer.
    /// Cost of a step: a pass over all vectors.
    pub fn descend(&mut self, steps: u32)
        ensures vectors { self.new.vectors ≡ self.old.vectors }
        ensures count { length self.new.parts ≡ length self.old.parts }
    {
        for _ in 0..steps {
            if !self.step() {
                return;
            }
        }
    }

    // Takes one step. False where none brings the mix nearer.
    fn step(&mut self) -> bool
        ensures vectors { self.new.vectors ≡ self.old.vectors }
        ensures count { length self.new.parts ≡ length self.old.parts }
    {
        measure(&mut self.pulls, &self.vectors, &self.off);
        let Some(best) = best_move(&self.vectors, &self.parts, &self.pulls) else {
            return false;
        };
        move_part(&mut self.parts, best);
        move_mix(&mut self.mix, &self.vectors, best);
        aim(&mut self.off, &self.mix, &self.low, &self.high);
        true
    }

    /// Takes out the first vector that has no part of the mix, and answers where it was. None where each has a part.
    pub fn drop_unused(&mut self) -> Option<usize>
        ensures unused { IfSome result (λ k. (k < length self.old.parts) × (slice_index self.old.parts k ≡ 0)) }
        ensures vectors { IfSome result (λ k. self.new.vectors ≡ remove self.old.vectors k) }
        ensures parts { IfSome result (λ k. self.new.parts ≡ remove self.old.parts k) }
        ensures kept { IfNone result (self.new ≡ self.old) }
    {
        let k = first_unused(&self.parts)?;
        self.vectors.remove(k);
        self.parts.remove(k);
        Some(k)
    }
}

// Each number times `SCALE`.
fn scaled(alloc: Global, numbers: &[i64]) -> Result<Vec<i64>, AllocError> {
    let mut products = Vec::new(alloc);
    for number in numbers {
        products.push(number.saturating_mul(i64::from(SCALE)))?;
    }
    Ok(products)
}

// Whether the vector is among these.
fn is_among(vectors: &[Vector], vector: &[i64]) -> bool
    ensures { IsTrue result ↔ Contains vectors.now vector.now }
{
    for v in vectors {
        if are_same(v.entries(), vector) {
            return true;
        }
    }
    false
}

fn are_same(a: &[i64], b: &[i64]) -> bool
    ensures { IsTrue result ↔ (a.now ≡ b.now) }
{
    a == b
}

// Where the first part of 0 is.
fn first_unused(parts: &[u32]) -> Option<usize>
    ensures { IfSome result (λ k. (k < length parts.now) × (slice_index parts.now k ≡ 0)) }
{
    parts.iter().position(|part| *part == 0)
}

// How far each vector lies in a direction.
fn measure(pulls: &mut [i64], vectors: &[Vector], off: &[i64]) {
    for (pull, vector) in pulls.iter_mut().zip(vectors.iter()) {
        *pull = product(vector.entries(), off);
    }
}

// Adds some parts of a vector to the mix.
fn add(mix: &mut [i64], vector: &[i64], part: u32) {
    for (sum, x) in mix.iter_mut().zip(vector.iter()) {
        *sum = sum.wrapping_add(x.wrapping_mul(i64::from(part)));
    }
}

// Takes some parts of a vector out of the mix.
fn take_out(mix: &mut [i64], vector: &[i64], part: u32) {
    for (sum, x) in mix.iter_mut().zip(vector.iter()) {
        *sum = sum.wrapping_sub(x.wrapping_mul(i64::from(part)));
    }
}

// Moves the part from the vector that loses it to the one that gains it.
fn move_part(parts: &mut [u32], best: Move)
    requires losing { best.losing < length parts.old }
    requires gaining { best.gaining < length parts.old }
    requires amount { best.amount ≤ slice_index parts.old best.losing }
    ensures { length parts.new ≡ length parts.old }
{
    parts[best.losing] -= best.amount;
    parts[best.gaining] = parts[best.gaining].saturating_add(best.amount);
}

// Moves the mix as the part of it was moved.
fn move_mix(mix: &mut [i64], vectors: &[Vector], best: Move)
    requires losing { best.losing < length vectors.now }
    requires gaining { best.gaining < length vectors.now }
{
    take_out(mix, vectors[best.losing].entries(), best.amount);
    add(mix, vectors[best.gaining].entries(), best.amount);
}

// What leads from the mix to the nearest point of the box, whose ends are given times `SCALE`.
fn aim(off: &mut [i64], mix: &[i64], low: &[i64], high: &[i64]) {
    let ends = low.iter().zip(high.iter());
    for (lead, (sum, (least, greatest))) in off.iter_mut().zip(mix.iter().zip(ends)) {
        let nearest = (*sum).max(*least).min(*greatest);
        *lead = nearest.wrapping_sub(*sum);
    }
}
