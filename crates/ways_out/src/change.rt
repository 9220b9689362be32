// What may be loosened of a problem.
use rwsp_terms::{Class, Symbol};

/// What is loosened of a problem, and in which direction. By how much is counted in steps.
#[derive(Clone, Copy, PartialEq, Eq)]
pub enum Change {
    /// The greatest length of the class's blocks rises by a day for each step.
    LongerBlocks(Class),
    /// The least length of the class's blocks falls by a day for each step.
    ShorterBlocks(Class),
    /// The least demand of the shift on the day falls by one for each step. Days count from 1.
    LowerDemand { day: u32, shift: Symbol },
    /// The greatest demand of the shift on the day rises by one for each step.
    HigherDemand { day: u32, shift: Symbol },
    /// The forbidden sequence at this place, counted from 0, is dropped. It has one step.
    Dropped(u32),
}

/// What is known of a change where the problem itself has no roster.
#[derive(Clone, Copy, PartialEq, Eq)]
pub enum Outcome {
    /// The problem has a roster with so many steps. If that is the nearest, it has none with fewer; otherwise fewer
    /// were left open.
    Helps { steps: u32, is_nearest: bool },
    /// It has no roster, with however many steps.
    Shut,
    /// The plan with all steps has spent its budget.
    Open,
}
