/// Where a bad window begins, counted from 0, and how long it is.
#[derive(Clone, Copy)]
pub struct Place {
    pub position: u32,
    pub length: u32,
}
