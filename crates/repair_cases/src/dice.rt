//! Numbers that look random, from a seed.
ghost use Rattle.std.specs.Prelude.{◌<◌};

/// A linear congruential generator, with Knuth's numbers for MMIX.
#[derive(Clone, Copy)]
pub struct Dice {
    state: u64,
}

impl Dice {
    /// The dice of a seed.
    pub fn new(seed: u64) -> Dice {
        let mut dice = Dice {
            state: seed.wrapping_mul(0x9e37_79b9_7f4a_7c15),
        };
        dice.step();
        dice.step();
        dice
    }

    fn step(&mut self) {
        self.state = self
            .state
            .wrapping_mul(6_364_136_223_846_793_005)
            .wrapping_add(1_442_695_040_888_963_407);
    }

    /// A number below another one.
    pub fn below(&mut self, bound: u32) -> u32
        requires { 0 < bound }
        ensures { result < bound }
    {
        self.step();
        let high = (self.state / 0x1_0000_0000) as u32;
        high % bound
    }

    /// One of two, equally often.
    pub fn is_heads(&mut self) -> bool {
        self.below(2) == 1
    }
}
