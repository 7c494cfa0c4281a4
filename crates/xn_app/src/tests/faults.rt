use super::texts::{K5, K5_GRAPH};
use super::*;

const CHECK: &str = "xnum check graph answer";

const SOLVE: &str = "xnum solve graph --budget 300";

// What a command on K5 writes, and with which code it ends, where the call of the input with this number fails, if one
// does, and the write with that one.
fn ended_with(
    alloc: Global,
    line: &str,
    read: Option<u64>,
    write: Option<u64>,
) -> Result<(String, u8), Fail> {
    let words = words_of(alloc, line)?;
    let mut reads = Vec::new(alloc);
    reads.extend(read)?;
    let mut writes = Vec::new(alloc);
    writes.extend(write)?;
    let mut input = MemInput::new(files_of(alloc, K5_GRAPH, K5)?, 100, reads);
    let mut out = MemSink::new(alloc, 1000, 5, writes)?;
    let status = top(alloc, &words, &mut input, &mut out, &mut Vec::new(alloc));
    let written = String::from_utf8(list_of_bytes(alloc, out.bytes())?)?;
    Ok((written, status.code()))
}

#[test]
fn a_failed_write_leaves_a_part(rt: HostRuntime) -> Result<(), Fail> {
    let (written, code) = ended_with(rt.alloc(), CHECK, None, Some(2))?;
    assert_eq!(rt; written.as_str(), "accepted 1");
    assert_eq!(rt; code, 7);
    let (written, code) = ended_with(rt.alloc(), SOLVE, None, Some(2))?;
    assert_eq!(rt; written.as_str(), "crossing-a");
    assert_eq!(rt; code, 7);
    Ok(())
}

#[test]
fn a_failed_read_writes_nothing(rt: HostRuntime) -> Result<(), Fail> {
    for call in [0, 2, 7] {
        let (written, code) = ended_with(rt.alloc(), CHECK, Some(call), None)?;
        assert_eq!(rt; written.as_str(), "");
        assert_eq!(rt; code, 6);
    }
    for call in [0, 2] {
        let (written, code) = ended_with(rt.alloc(), SOLVE, Some(call), None)?;
        assert_eq!(rt; written.as_str(), "");
        assert_eq!(rt; code, 6);
    }
    Ok(())
}

#[test]
fn a_bad_graph_comes_before_a_missing_answer(rt: HostRuntime) -> Result<(), Fail> {
    let alloc = rt.alloc();
    let (written, status) = ended(alloc, "xnum check graph missing", "graph", "")?;
    assert_eq!(rt; written.as_str(), "");
    assert_eq!(rt; status.code(), 3);
    let (_, status) = ended(alloc, "xnum check graph missing", K5_GRAPH, "")?;
    assert_eq!(rt; status.code(), 6);
    Ok(())
}
