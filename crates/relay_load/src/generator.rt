//! The numbers of a load.

ghost use Rattle.std.specs.Prelude.{◌≡◌, ◌/◌, ◌^◌};
ghost use Rattle.relay_load.specs.Generator.{next_number};

/// A linear congruential generator modulo 2^64.
///
/// Its low bits repeat soon, so a word is the high half of a number.
#[derive(Clone, Copy, Debug)]
pub struct Generator {
    pub number: u64,
}

impl Generator {
    /// Draws a word.
    pub fn draw(&mut self) -> u32
        ensures number { self.new.number ≡ next_number self.old.number }
        ensures word { result ≡ self.new.number / 2 ^ 32 }
    {
        self.number = self
            .number
            .wrapping_mul(6_364_136_223_846_793_005)
            .wrapping_add(1_442_695_040_888_963_407);
        (self.number >> 32) as u32
    }
}
