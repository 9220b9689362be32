// A gate at which two workers see each other, so that they are there at once.
use clean_words::Gate;
use std::sync::atomic::{AtomicBool, Ordering};

// How often a worker looks for the other before it gives up, which takes ten seconds or so: on a machine that is busy
// with other work, a thread may begin late.
const MOST_LOOKS: u64 = 20_000_000_000;

/// A gate at which the workers of chunks 1 and 2 wait for each other, though not for ever.
#[derive(Drop)]
pub struct Meeting {
    flags: [AtomicBool; 2],
    met: [AtomicBool; 2],
}

impl Meeting {
    /// A gate that nobody has come to.
    pub fn new() -> Meeting {
        Meeting {
            flags: [AtomicBool::new(false), AtomicBool::new(false)],
            met: [AtomicBool::new(false), AtomicBool::new(false)],
        }
    }

    /// Whether each of the two has seen the other.
    pub fn took_place(&self) -> bool {
        let [first, second] = &self.met;
        first.load(Ordering::SeqCst) && second.load(Ordering::SeqCst)
    }
}

impl Gate for Meeting {
    fn enter(&self, chunk: u32) {
        let [first, second] = &self.flags;
        let [first_met, second_met] = &self.met;
        match chunk {
            1 => meet(first, second, first_met),
            2 => meet(second, first, second_met),
            _ => {}
        }
    }
}

// Sets a flag, looks for the other until it is set or for long, and notes whether it was seen.
fn meet(own: &AtomicBool, other: &AtomicBool, met: &AtomicBool) {
    own.store(true, Ordering::SeqCst);
    for _ in 0..MOST_LOOKS {
        if other.load(Ordering::SeqCst) {
            met.store(true, Ordering::SeqCst);
            return;
        }
    }
}
