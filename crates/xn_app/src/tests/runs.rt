use super::texts::EMPTY;
use super::*;
use crate::telling::tell;

// What a run over these files says on standard error, and its exit code, where the call of the input with this number
// fails, if one does, and standard output has this much room.
fn told(
    alloc: Global,
    line: &str,
    graph: &str,
    answer: &str,
    read: Option<u64>,
    room: usize,
) -> Result<(String, u8), Fail> {
    let words = words_of(alloc, line)?;
    let mut reads = Vec::new(alloc);
    reads.extend(read)?;
    let mut input = MemInput::new(files_of(alloc, graph, answer)?, 100, reads);
    let mut out = MemSink::new(alloc, room, 100, Vec::new(alloc))?;
    let mut errors = MemSink::new(alloc, 100, 5, Vec::new(alloc))?;
    let code = run(
        alloc,
        &words,
        &mut input,
        &mut out,
        &mut Vec::new(alloc),
        &mut errors,
    );
    let told = String::from_utf8(list_of_bytes(alloc, errors.bytes())?)?;
    Ok((told, code))
}

#[test]
fn each_end_has_its_line_and_code(rt: HostRuntime) -> Result<(), Fail> {
    let alloc = rt.alloc();
    for (line, graph, read, room, want, code) in [
        ("xnum examine answer", "", None, 100, "", 1),
        (
            "xnum cross a",
            "",
            None,
            100,
            "xnum: the words are not a command of this program\n",
            2,
        ),
        (
            "xnum check graph answer",
            "graph [ node [ id ] ]",
            None,
            100,
            "xnum: graph text refused: syntax at 18\n",
            3,
        ),
        (
            "xnum draw graph answer",
            "",
            None,
            100,
            "xnum: graph text refused: no graph\n",
            3,
        ),
        (
            "xnum examine answer",
            "",
            Some(0),
            100,
            "xnum: a read failed\n",
            6,
        ),
        (
            "xnum examine answer",
            "",
            None,
            0,
            "xnum: a write failed\n",
            7,
        ),
    ] {
        let (text, ended) = told(alloc, line, graph, "", read, room)?;
        assert_eq!(rt; text.as_str(), want, "{line}");
        assert_eq!(rt; ended, code, "{line}");
    }
    Ok(())
}

#[test]
fn done_says_nothing(rt: HostRuntime) -> Result<(), Fail> {
    let (text, code) = told(rt.alloc(), "xnum examine answer", "", EMPTY, None, 100)?;
    assert_eq!(rt; text.as_str(), "");
    assert_eq!(rt; code, 0);
    Ok(())
}

#[test]
fn a_limit_is_told(rt: HostRuntime) -> Result<(), Fail> {
    let alloc = rt.alloc();
    let mut graph = String::from_str(alloc, "graph [ ")?;
    for id in 0..1001 {
        graph.push_str(format!(in alloc; "node [ id {id} ] ")?.as_str())?;
    }
    graph.push_str("]")?;
    let line = "xnum check graph answer";
    let (text, code) = told(alloc, line, graph.as_str(), "", None, 100)?;
    assert_eq!(rt; text.as_str(), "xnum: more than 1000 nodes\n");
    assert_eq!(rt; code, 4);
    Ok(())
}

#[test]
fn ends_that_no_file_leads_to_are_told(rt: HostRuntime) -> Result<(), Fail> {
    let alloc = rt.alloc();
    for (end, want, code) in [
        (Status::Memory, "xnum: no memory\n", 8),
        (Status::Limit(Limit::Bytes), "xnum: too many bytes\n", 4),
    ] {
        let mut errors = MemSink::new(alloc, 100, 5, Vec::new(alloc))?;
        assert_eq!(rt; tell(end, &mut errors), code, "{want}");
        assert_eq!(rt; errors.bytes(), want.as_bytes(), "{want}");
    }
    Ok(())
}
