/// A place in the trail: how many changes had been made. The domains at that time come back as long as nothing before
/// it is undone.
#[derive(Clone, Copy)]
pub struct Mark {
    pub len: usize,
}
