// Shuffles that are the same in each run.
ghost use Rattle.std.specs.Prelude.{◌≡◌, ◌+◌, ◌*◌, ◌%◌, ◌<◌, ◌≤◌, IsPermutation, length};

/// Numbers drawn one after the other: each state is 75 times the one before and 74 more, modulo 65537.
#[derive(Drop)]
pub struct Draws {
    /// The state, below 65537.
    pub state: u32,
}

impl Draws {
    /// Draws that begin with a state.
    pub fn new(first: u32) -> Draws
        ensures { result.state ≡ first % 65537 }
    {
        Draws {
            state: first % 65537,
        }
    }

    /// The next number below a bound.
    pub fn next(&mut self, bound: u32) -> u32
        requires bound { 0 < bound }
        requires small { self.old.state < 65537 }
        ensures state { self.new.state ≡ (75 * self.old.state + 74) % 65537 }
        ensures value { result ≡ self.new.state % bound }
    {
        self.state = (75 * self.state + 74) % 65537;
        self.state % bound
    }
}

/// Exchanges each element, from the last on, with one drawn of those up to it (Durstenfeld 1964).
pub fn shuffle(list: &mut [u32], draws: &mut Draws)
    requires few { length list.old ≤ 1000 }
    requires small { draws.old.state < 65537 }
    ensures moved { IsPermutation list.old list.new }
    ensures small { draws.new.state < 65537 }
{
    for k in 1..list.len() {
        let i = list.len() - k;
        let j = draws.next(i as u32 + 1) as usize;
        list.swap(i, j);
    }
}
