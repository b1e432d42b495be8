//! Numbers that look random, the same ones in each run.
#![tactic(auto)]

ghost use Rattle.std.specs.Prelude.{◌<◌};

#[derive(Drop)]
pub struct Dice(u64);

impl Dice {
    pub fn new() -> Dice {
        Dice(0x9e37_79b9_7f4a_7c15)
    }

    fn roll(&mut self) -> u64 {
        let mut x = self.0;
        x ^= x << 13;
        x ^= x >> 7;
        x ^= x << 17;
        self.0 = x;
        x
    }

    /// A number below another one.
    pub fn below(&mut self, count: u32) -> u32
        requires { 0 < count }
        ensures { result < count }
    {
        ((self.roll() >> 11) % u64::from(count)) as u32
    }
}
