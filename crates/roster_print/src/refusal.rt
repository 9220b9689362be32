/// Why a text is refused as a roster.
#[derive(Clone, Copy, Debug, PartialEq, Eq)]
pub enum RosterRefusal {
    /// A word on the line with this number, from 1 on, is no symbol's name.
    Unknown(u32),
    /// The line with this number, from 1 on, has not one word for each day.
    Width(u32),
    /// The text has this number of weeks, and the problem another.
    Weeks(u32),
}
