// The drawing of numbers.
ghost use Rattle.std.specs.Prelude.{◌≡◌, ◌<◌, ◌%◌};
ghost use Rattle.rdrill.specs.Draws.{modulus, next_draw};

/// Every drawing number is below this prime.
const MODULUS: u32 = 65_537;

/// A drawing number. Each draw makes the next one from it.
#[derive(Clone, Copy)]
pub struct Dice {
    pub x: u32,
}

impl Dice {
    /// Draws a number below `k`.
    pub fn draw(&mut self, k: u32) -> u32
        requires small { self.old.x < modulus }
        requires some { 0 < k }
        ensures dice { self.new.x ≡ next_draw self.old.x }
        ensures small { self.new.x < modulus }
        ensures drawn { result ≡ next_draw self.old.x % k }
        ensures below { result < k }
    {
        self.x = (75 * self.x + 74) % MODULUS;
        self.x % k
    }
}
