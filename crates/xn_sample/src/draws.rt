// Numbers that look random and are the same in each run.
ghost use Rattle.std.specs.Prelude.{◌≡◌, ◌%◌, ◌<◌};
ghost use Rattle.xn_sample.specs.Sample.{next_state};

use std::marker::Model;

/// Numbers drawn one after the other, by a linear congruence: each state is 75 times the one before and 74
/// more, modulo 65537.
#[derive(Debug, Drop)]
pub struct Draws {
    state: u32,
}

impl Model for Draws {
    ghost use Rattle.std.specs.Prelude.{ℕ, ◌<◌};

    ghost Value = { ℕ };

    ghost view = { λ draws. draws.state };

    ghost invariant = { λ draws. draws.state < 65537 };
}

impl Draws {
    /// Draws that begin with a state below 65537.
    pub fn new(first: u32) -> Draws
        requires { first < 65537 }
        ensures { result ≡ first }
    {
        Draws { state: first }
    }

    /// The next number below a bound.
    pub fn next(&mut self, bound: u32) -> u32
        requires { 0 < bound }
        ensures state { self.new ≡ next_state self.old }
        ensures value { result ≡ next_state self.old % bound }
    {
        self.state = (75 * self.state + 74) % 65537;
        self.state % bound
    }
}
