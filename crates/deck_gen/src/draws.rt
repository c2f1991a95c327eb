// The stream of numbers that all texts are drawn from.
#![tactic(auto)]

ghost use Rattle.std.specs.Prelude.{◌≡◌, ◌<◌};
ghost use Rattle.program_model.specs.Draws.{next, after, draw};

use std::marker::Model;

/// What is still to be drawn, seen as the number behind the stream.
#[derive(Drop)]
pub struct Draws {
    x: u32,
}

impl Model for Draws {
    ghost use Rattle.std.specs.Prelude.{ℕ};

    ghost Value = { ℕ };

    ghost view = { λ d. d.x };
}

// The number behind the stream after one draw.
fn next_of(x: u32) -> u32
    ensures { result ≡ next x }
{
    ((u64::from(x) * 1_664_525 + 1_013_904_223) % 0x1_0000_0000) as u32
}

impl Draws {
    /// The draws that a number begins.
    pub fn new(number: u32) -> Draws
        ensures { result ≡ number }
    {
        Draws { x: number }
    }

    /// The next draw.
    #[tactic(auto, unfolding(program_model::specs::Draws::after, program_model::specs::Draws::draw))]
    pub fn draw(&mut self) -> u32
        ensures value { result ≡ draw 1 self.old }
        ensures rest { self.new ≡ after 1 self.old }
        ensures small { result < 65536 }
    {
        self.x = next_of(self.x);
        self.x / 0x1_0000
    }

    /// The next two draws.
    #[tactic(auto, unfolding(program_model::specs::Draws::after, program_model::specs::Draws::draw))]
    pub fn two(&mut self) -> (u32, u32)
        ensures first { result.0 ≡ draw 1 self.old }
        ensures second { result.1 ≡ draw 2 self.old }
        ensures rest { self.new ≡ after 2 self.old }
    {
        let a = self.draw();
        let b = self.draw();
        (a, b)
    }

    /// The next three draws.
    #[tactic(auto, unfolding(program_model::specs::Draws::after, program_model::specs::Draws::draw))]
    pub fn three(&mut self) -> (u32, u32, u32)
        ensures first { result.0 ≡ draw 1 self.old }
        ensures second { result.1 ≡ draw 2 self.old }
        ensures third { result.2 ≡ draw 3 self.old }
        ensures rest { self.new ≡ after 3 self.old }
        ensures small { (result.0 < 65536) × (result.1 < 65536) × (result.2 < 65536) }
    {
        let a = self.draw();
        let b = self.draw();
        let c = self.draw();
        (a, b, c)
    }
}
