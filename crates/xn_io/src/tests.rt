ghost use Rattle.std.specs.Prelude.{◌^◌, ◌≤◌};

use super::*;
use std::alloc::{AllocError, Global};
use std::test::Fail;

// Of two files with one name the first counts.
fn files(alloc: Global) -> Result<Vec<(String, Vec<u8>)>, AllocError> {
    let mut files = Vec::new(alloc);
    for (name, text) in [("empty", ""), ("four", "abcd"), ("four", "efghi")] {
        let name = String::from_str(alloc, name)?;
        files.push((name, Vec::from_slice(alloc, text.as_bytes())?))?;
    }
    Ok(files)
}

// The one number, or none.
fn numbers(alloc: Global, number: Option<u64>) -> Result<Vec<u64>, AllocError> {
    let mut numbers = Vec::new(alloc);
    if let Some(number) = number {
        numbers.push(number)?;
    }
    Ok(numbers)
}

fn read_text<I: Input>(
    alloc: Global,
    input: &mut I,
    name: &str,
    limit: u64,
) -> Result<Result<String, ReadErr>, Fail>
    requires { limit ≤ 2 ^ 62 }
{
    let name = String::from_str(alloc, name)?;
    match read_all(alloc, input, name, limit) {
        Ok(bytes) => Ok(Ok(String::from_utf8(bytes)?)),
        Err(error) => Ok(Err(error)),
    }
}

#[test]
fn a_name_is_read_in_steps_unless_a_call_fails(rt: HostRuntime) -> Result<(), Fail> {
    let alloc = rt.alloc();
    for (name, limit, step, fail, want) in [
        ("four", 4, 9, None, Ok("abcd")),
        ("four", 3, 9, None, Err(ReadErr::TooLong)),
        ("four", 3, 1, None, Err(ReadErr::TooLong)),
        ("four", 4, 3, Some(0), Err(ReadErr::Fault)),
        ("four", 4, 3, Some(3), Err(ReadErr::Fault)),
        ("four", 4, 3, Some(4), Ok("abcd")),
        ("empty", 0, 9, None, Ok("")),
        ("none", 9, 9, None, Err(ReadErr::Fault)),
    ] {
        let mut input = MemInput::new(files(alloc)?, step, numbers(alloc, fail)?);
        let read = read_text(alloc, &mut input, name, limit)?;
        let read = read.as_ref().map(|text| text.as_str()).map_err(|e| *e);
        assert_eq!(rt; read, want, "{name} to {limit} in steps of {step}");
    }
    Ok(())
}

#[test]
fn a_quiet_input_reads_every_name(rt: HostRuntime) -> Result<(), Fail> {
    let alloc = rt.alloc();
    let mut input = QuietInput::new(files(alloc)?);
    for (name, want) in [("four", "abcd"), ("empty", ""), ("none", "")] {
        let read = read_text(alloc, &mut input, name, 4)?;
        assert_eq!(rt; read.as_ref().map(|text| text.as_str()), Ok(want), "{name}");
    }
    Ok(())
}

#[test]
fn a_sink_takes_a_front_where_a_write_fails(rt: HostRuntime) -> Result<(), Fail> {
    let alloc = rt.alloc();
    for (room, step, fail, want, taken) in [
        (13, 99, None, Ok(()), "accepted 1 1\n"),
        (13, 1, Some(13), Ok(()), "accepted 1 1\n"),
        (99, 5, Some(2), Err(Failed), "accepted 1"),
        (99, 5, Some(0), Err(Failed), ""),
        (12, 5, None, Err(Failed), "accepted 1 1"),
    ] {
        let mut sink = MemSink::new(alloc, room, step, numbers(alloc, fail)?)?;
        assert_eq!(rt; write_all(&mut sink, b"accepted 1 1\n"), want);
        assert_eq!(rt; sink.bytes(), taken.as_bytes());
    }
    assert_eq!(rt; write_all(&mut QuietSink::new(), b"accepted 1 1\n"), Ok(()));
    Ok(())
}

#[test]
fn the_system_is_read_and_written(rt: HostRuntime) -> Result<(), Fail> {
    let alloc = rt.alloc();
    for (path, want) in [
        ("/dev/null", Ok("")),
        ("/dev/zero", Err(ReadErr::TooLong)),
        ("/", Err(ReadErr::Fault)),
        ("/no such file", Err(ReadErr::Fault)),
    ] {
        let mut input = FileInput::new(&rt);
        let read = read_text(alloc, &mut input, path, 1 << 20)?;
        let read = read.as_ref().map(|text| text.as_str()).map_err(|e| *e);
        assert_eq!(rt; read, want, "{path}");
    }
    assert_eq!(rt;
        write_all(&mut StdSink::new(&rt), b"accepted 1 1\n"),
        Ok(())
    );
    Ok(())
}
