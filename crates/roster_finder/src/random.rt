// Random numbers that are the same in each run.
ghost use Rattle.std.specs.Prelude.{◌<◌, ◌^◌};

/// The numbers of a linear congruential generator of 64 bits (D. Knuth, 1997).
const FACTOR: u64 = 6364136223846793005;

const INCREMENT: u64 = 1442695040888963407;

/// A generator of random numbers.
#[derive(Drop)]
pub(crate) struct Random {
    state: u64,
}

impl Random {
    /// The generator of this seed. Each seed has numbers of its own.
    pub fn new(seed: u32) -> Random {
        Random {
            state: INCREMENT.wrapping_add(u64::from(seed)),
        }
    }

    // The next number. The generator's states are numbers modulo 2^64, so it wraps; their high bits are the random ones.
    fn draw(&mut self) -> u32
        ensures { result < 2 ^ 31 }
    {
        self.state = self.state.wrapping_mul(FACTOR).wrapping_add(INCREMENT);
        (self.state >> 33) as u32
    }

    /// A number below the limit.
    pub fn below(&mut self, limit: usize) -> usize
        requires { 0 < limit }
        ensures { result < limit }
    {
        self.draw() as usize % limit
    }

    /// A cost below the limit; 0 where the limit is 0.
    pub fn noise(&mut self, limit: u32) -> i64 {
        self.cost_below(i64::from(limit))
    }

    /// A cost below the limit, and below 2^31; 0 where the limit is 0 or less.
    pub fn cost_below(&mut self, limit: i64) -> i64 {
        let drawn = i64::from(self.draw());
        if limit > 0 { drawn % limit } else { 0 }
    }
}
