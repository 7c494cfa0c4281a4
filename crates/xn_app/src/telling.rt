// What is said of an end on standard error.
ghost use Rattle.std.specs.Prelude.{◌≡◌, ◌≤◌, length};
ghost use Rattle.xn_app.specs.Exits.{Says};
ghost use Rattle.xn_app.specs.Status.{code_of};
ghost use Rattle.xn_app.specs.Texts.{digits_of, told_line};

use crate::status::Status;
use arrayvec::ArrayString;
use itoa::Buffer;
use xn_io::{Sink, write_all};

/// Says why a run ended so, and gives its exit code. It takes no memory, and a fault of the sink changes nothing else.
pub fn tell<E: Sink>(end: Status, errors: &mut E) -> u8
    ensures code { result ≡ code_of end }
    ensures says { Says end (record {
      old = E.taken errors.old;
      new = E.taken errors.new;
      before = E.faults errors.old;
      after = E.faults errors.new;
    }) }
{
    let _ = write_all(errors, told_line(end).as_str().as_bytes());
    end.code()
}

// The line that says why a run ended so; it is empty where that is told on standard output.
fn told_line(end: Status) -> ArrayString<100>
    ensures { result.bytes ≡ told_line end }
{
    let mut line = ArrayString::new();
    let text = end.text();
    if text.is_empty() {
        return line;
    }
    let mut buffer = Buffer::new();
    line.push_str(text);
    line.push_str(digits(&mut buffer, end.offset()));
    line.push_str("\n");
    line
}

// The digits of an offset, if there is one.
fn digits(buffer: &mut Buffer, offset: Option<u64>) -> &str
    ensures is { result.now ≡ digits_of offset }
    ensures short { length result.now ≤ 40 }
{
    match offset {
        Some(at) => buffer.format(at),
        None => "",
    }
}
