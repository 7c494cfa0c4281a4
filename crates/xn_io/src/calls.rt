// Calls of which some fail.

/// The calls of an object, which are numbered from 0. Those whose numbers are listed fail.
#[derive(Drop)]
pub struct Calls {
    fail: Vec<u64>,
    number: u64,
}

impl Calls {
    ghost use Rattle.std.specs.Prelude.{◌≡◌, ◌↔◌, IsTrue};
    ghost use Rattle.xn_io.specs.Calls.{IsFailing, Passes, number_of, failing_of};

    /// No call has come.
    pub fn new(fail: Vec<u64>) -> Calls
        ensures number { number_of result ≡ 0 }
        ensures failing { failing_of result ≡ fail.items }
    {
        Calls { fail, number: 0 }
    }

    /// Passes one number, and says whether that call fails.
    pub fn next_fails(&mut self) -> bool
        ensures fails { IsTrue result ↔ IsFailing self.old }
        ensures passes { Passes self.old self.new }
    {
        let number = self.number;
        self.number = number.saturating_add(1);
        self.fail.contains(&number)
    }
}
