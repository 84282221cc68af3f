// A generator of pseudo-random numbers: from the same seed the same numbers, whatever the compiler.
ghost use Rattle.std.specs.Prelude.{◌≤◌};

#[derive(Clone, Copy)]
pub struct Generator {
    state: u64,
}

impl Generator {
    pub fn new(seed: u64) -> Generator {
        Generator { state: seed }
    }

    // A step of SplitMix64.
    fn step(&mut self) -> u64 {
        self.state = self.state.wrapping_add(0x9e37_79b9_7f4a_7c15);
        let z = self.state;
        let z = (z ^ (z >> 30)).wrapping_mul(0xbf58_476d_1ce4_e5b9);
        let z = (z ^ (z >> 27)).wrapping_mul(0x94d0_49bb_1331_11eb);
        z ^ (z >> 31)
    }

    pub fn byte(&mut self) -> u8 {
        let [first, ..] = self.step().to_be_bytes();
        first
    }

    // A number below a bound; 0 if the bound is 0.
    pub fn below(&mut self, bound: usize) -> usize
        ensures { result ≤ bound }
    {
        let [a, b, c, d, ..] = self.step().to_be_bytes();
        let word = u32::from_be_bytes([a, b, c, d]);
        (word as usize).checked_rem(bound).unwrap_or(0)
    }

    // True so many times in a hundred.
    pub fn happens(&mut self, percent: usize) -> bool {
        self.below(100) < percent
    }

    // One of some items; `other` if there are none.
    pub fn one_of<T: Copy>(&mut self, items: &[T], other: T) -> T {
        let at = self.below(items.len());
        items.get(at).copied().unwrap_or(other)
    }

    // A place in a table of weights, which add up to 100.
    pub fn weighted(&mut self, weights: &[u8]) -> usize {
        let mut left = self.below(100);
        for (place, weight) in weights.iter().enumerate() {
            let weight = usize::from(*weight);
            if left < weight {
                return place;
            }
            left -= weight;
        }
        weights.len()
    }
}
