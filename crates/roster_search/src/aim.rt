// What a search is for.
ghost use Rattle.std.specs.Prelude.{◌≡◌, IfOk};

use refutation_terms::Opening;
use std::alloc::AllocError;

/// What a search is for. `opening` is what is known before its first line: with a turn, its symbol is alone on its day
/// of the first week, and a given cell has its symbol alone. With a goal a roster must have at least as many free
/// weekends, and the log has this goal, no turn and no given cells. The log has at most `budget` splits and leaves that
/// hold.
#[derive(Drop)]
pub struct Aim {
    pub opening: Opening,
    pub goal: Option<u32>,
    pub budget: u32,
}

impl Aim {
    /// The same with another budget.
    pub fn within(&self, budget: u32) -> Result<Aim, AllocError>
        ensures opening { IfOk result (λ aim. aim.opening ≡ self.now.opening) }
        ensures goal { IfOk result (λ aim. aim.goal ≡ self.now.goal) }
        ensures budget { IfOk result (λ aim. aim.budget ≡ budget) }
    {
        Ok(Aim {
            opening: self.opening.copy()?,
            goal: self.goal,
            budget,
        })
    }
}
