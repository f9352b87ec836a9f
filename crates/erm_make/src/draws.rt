//! The draws of keys.
ghost use Rattle.std.specs.Prelude.{◌≡◌, ℕ, ◌+◌, ◌^◌, ◌<◌};
ghost use Rattle.erm_make.specs.Draws.{draw, state_after};

const MODULUS: u64 = 1 << 31;

const MULTIPLIER: u64 = 1_103_515_245;

const INCREMENT: u64 = 12_345;

/// Half of the state's bits, which are left away in a draw.
const LOW: u64 = 65_536;

/// How many keys are drawn from.
const KEYS: u64 = 64;

/// A linear congruential generator, from which keys are drawn one after another.
#[derive(Drop)]
pub struct Draws {
    pub state: u64,
    ghost in_range: { state < 2 ^ 31 },
}

impl Draws {
    /// No key was drawn.
    pub fn new() -> Draws
        ensures { result.state ≡ state_after 0 }
    {
        Draws { state: 1 }
    }

    /// Draws a key, below 64.
    pub fn draw(&mut self) -> u64
        ensures state { (n : ℕ) → self.old.state ≡ state_after n → self.new.state ≡ state_after (n + 1) }
        ensures drawn { (n : ℕ) → self.old.state ≡ state_after n → result ≡ draw n }
        ensures key { result < 64 }
    {
        self.state = (self.state * MULTIPLIER + INCREMENT) % MODULUS;
        self.state / LOW % KEYS
    }
}
