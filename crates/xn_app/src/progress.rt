// How far a search is, said while it lasts.
ghost use Rattle.std.specs.Prelude.{◌≡◌, Some, false, IfSome, IsTrue};
ghost use Rattle.xn_app.specs.Progress.{IsSecondLater, progress_line};

use arrayvec::ArrayString;
use itoa::Buffer;
use std::alloc::{AllocError, Global};
use std::io::Print;
use std::time::{Clock, Duration, Instant};
use xn_cutter::{Cutter, Progress};
use xn_frac::Frac;
use xn_graph::Graph;
use xn_kinds::{Row, Var};
use xn_tree::Given;

/// Says how far the search is, at most once a second by its clock. It never has a row, so it is asked last.
#[derive(Drop)]
pub struct Teller<C: Clock + Drop, P: Print + Drop> {
    clock: C,
    screen: P,
    last: Option<Instant>,
}

impl<C: Clock + Drop, P: Print + Drop> Teller<C, P> {
    /// Its first line comes a second after it hears of the search.
    pub fn new(clock: C, screen: P) -> Self {
        Teller {
            clock,
            screen,
            last: None,
        }
    }

    // Whether a second has gone since the last line; before the first, since the first call.
    fn is_due(&mut self) -> bool
        ensures due { IsTrue result → IsSecondLater self.old.last self.new.last }
        ensures kept { result ≡ false → IfSome self.old.last (λ last. self.new.last ≡ Some last) }
    {
        let now = match Instant::now(&self.clock) {
            Ok(now) => now,
            Err(_) => return false,
        };
        let is_due = match self.last {
            Some(last) => now.duration_since(last) >= Duration::from_secs(1),
            None => false,
        };
        if is_due || self.last.is_none() {
            self.last = Some(now);
        }
        is_due
    }
}

impl<C: Clock + Drop, P: Print + Drop> Cutter for Teller<C, P> {
    fn cut(
        &mut self,
        _alloc: Global,
        _graph: &Graph,
        _given: &Given,
        _point: &[(Var, Frac)],
    ) -> Result<Option<Row>, AllocError> {
        Ok(None)
    }

    fn hear(&mut self, progress: Progress) {
        if self.is_due() {
            let line = progress_line(progress);
            let _ = self.screen.write_all(line.as_str().as_bytes());
        }
    }
}

// The line that says how far a search is.
fn progress_line(progress: Progress) -> ArrayString<100>
    ensures { result.bytes ≡ progress_line progress }
{
    let mut buffer = Buffer::new();
    let mut line = ArrayString::new();
    line.push_str("xnum: round ");
    line.push_str(buffer.format(progress.round));
    line.push_str(", ");
    line.push_str(buffer.format(progress.opened));
    line.push_str(" nodes opened, best drawing ");
    line.push_str(buffer.format(progress.best));
    line.push_str("\n");
    line
}
