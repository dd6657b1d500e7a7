//! The numbers from which a script is drawn.

ghost use Rattle.std.specs.Prelude.{◌≡◌, ◌<◌};
ghost use Rattle.mm_sample.specs.Draws.{next, drawn};

const MULTIPLIER: u64 = 6_364_136_223_846_793_005;

const INCREMENT: u64 = 1_442_695_040_888_963_407;

/// A generator of numbers.
#[derive(Drop)]
pub struct Draws {
    number: u64,
}

impl Draws {
    /// The generator that begins with a seed.
    pub fn new(seed: u64) -> Draws
        ensures { result.number ≡ seed }
    {
        Draws { number: seed }
    }

    #[tactic(auto, unfolding(crate::specs::Draws::next, crate::specs::Draws::drawn))]
    /// A number below a bound. It comes from the generator's high bits, since the low ones repeat early.
    pub fn draw(&mut self, bound: u64) -> u64
        requires { 0 < bound }
        ensures number { self.new.number ≡ next self.old.number }
        ensures drawn { result ≡ drawn self.new.number bound }
        ensures below { result < bound }
    {
        self.number = self.number.wrapping_mul(MULTIPLIER).wrapping_add(INCREMENT);
        (self.number >> 33) % bound
    }
}
