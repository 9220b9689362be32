// Gates before the chunks of workers.

/// What each worker passes before it begins a chunk. Chunks count from 1.
/// A gate whose workers wait for each other lets a test see two of them at work at once.
pub trait Gate: Sync {
    fn enter(&self, chunk: u32);
}

/// A gate that lets every worker pass at once.
pub struct NoGate;

impl Gate for NoGate {
    fn enter(&self, _chunk: u32) {}
}
