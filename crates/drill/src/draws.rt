//! Numbers that are drawn from a seed.
ghost use Rattle.std.specs.Prelude.{◌≡◌, ◌<◌, ◌^◌, length, map};
ghost use Rattle.drill.specs.Draws.{next_state, drawn_number, state_after, draws};
ghost use Rattle.drill.specs.Drill.{drawn_bytes};

/// A linear congruential generator modulo 2^31. The same seed gives the same numbers.
#[derive(Clone, Copy)]
pub(crate) struct Draws {
    pub(crate) state: u32,
}

impl Draws {
    /// One number, from 0 to 32,767.
    pub(crate) fn draw(&mut self) -> u16
        ensures state { self.new.state ≡ next_state self.old.state }
        ensures drawn { result ≡ drawn_number self.new.state }
    {
        let next = (u64::from(self.state) * 1_103_515_245 + 12_345) % 2_147_483_648;
        self.state = next as u32;
        (self.state / 65_536) as u16
    }

    /// Four numbers, in order.
    #[tactic(auto, unfolding(crate::specs::Draws::state_after, crate::specs::Draws::draws))]
    pub(crate) fn four(&mut self) -> [u16; 4]
        ensures draws { result ≡ draws 4 self.old.state }
        ensures state { self.new.state ≡ state_after 4 self.old.state }
    {
        let first = self.draw();
        let second = self.draw();
        let third = self.draw();
        [first, second, third, self.draw()]
    }

    /// Draws a number from 00 to 3f (hexadecimal) for each byte and writes it there.
    pub(crate) fn fill(&mut self, bytes: &mut [u8])
        ensures bytes { bytes.new ≡ drawn_bytes (length bytes.old) self.old.state }
        ensures state { self.new.state ≡ state_after (length bytes.old) self.old.state }
    {
        for byte in bytes.iter_mut() {
            *byte = (self.draw() % 64) as u8;
        }
    }
}
