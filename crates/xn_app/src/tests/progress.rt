// What is said while a search lasts.
use crate::progress::Teller;
use std::alloc::Global;
use std::cell::Cell;
use std::fmt::Display;
use std::io;
use std::io::Print;
use std::test::Fail;
use std::time::{Clock, Duration};
use xn_cutter::{Cutter, Progress};

// A clock that goes on by 400 milliseconds each time it is read.
#[derive(Drop)]
struct Ticks {
    time: Cell<u64>,
}

impl Clock for Ticks {
    fn monotonic(&self) -> io::Result<Duration> {
        let time = self.time.get();
        self.time.set(time.saturating_add(400));
        Ok(Duration::from_millis(time))
    }

    fn since_1970(&self) -> io::Result<Duration> {
        self.monotonic()
    }
}

// What keeps the bytes that are printed.
#[derive(Drop)]
struct Page {
    alloc: Global,
    bytes: Cell<Vec<u8>>,
}

impl Print for Page {
    fn print<D: Display + Drop>(&self, _value: D) -> io::Result<()> {
        Ok(())
    }

    fn println<D: Display + Drop>(&self, _value: D) -> io::Result<()> {
        Ok(())
    }

    fn write_all(&self, bytes: &[u8]) -> io::Result<()> {
        let mut all = self.bytes.replace(Vec::new(self.alloc));
        all.extend_from_slice(bytes)?;
        self.bytes.set(all);
        Ok(())
    }
}

#[test]
fn a_line_comes_at_most_once_a_second(rt: HostRuntime) -> Result<(), Fail> {
    let alloc = rt.alloc();
    let ticks = Ticks { time: Cell::new(0) };
    let page = Page {
        alloc,
        bytes: Cell::new(Vec::new(alloc)),
    };
    let mut teller = Teller::new(&ticks, &page);
    for opened in 0..8 {
        teller.hear(Progress {
            round: 3,
            opened,
            best: 5,
        });
    }
    let said = String::from_utf8(page.bytes.replace(Vec::new(alloc)))?;
    let want = "xnum: round 3, 3 nodes opened, best drawing 5\n\
        xnum: round 3, 6 nodes opened, best drawing 5\n";
    assert_eq!(rt; said.as_str(), want);
    Ok(())
}
