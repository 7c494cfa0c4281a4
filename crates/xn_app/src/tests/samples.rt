use super::*;

#[test]
fn samples_without_a_crossing_are_searched(rt: HostRuntime) -> Result<(), Fail> {
    let alloc = rt.alloc();
    for (line, want) in [
        ("xnum sample 8", "sample 8 12 lower 0 upper 0 spent 0\n"),
        ("xnum sample 3", "sample 3 4 lower 0 upper 0 spent 0\n"),
    ] {
        let (written, status) = ended(alloc, line, "", "")?;
        assert_eq!(rt; written.as_str(), want);
        assert_eq!(rt; status, Status::Done);
    }
    Ok(())
}

#[test]
fn a_spent_budget_leaves_a_sample_undecided(rt: HostRuntime) -> Result<(), Fail> {
    let alloc = rt.alloc();
    let line = "xnum sample 200 --budget 0";
    let (written, status) = ended(alloc, line, "", "")?;
    assert!(rt;
        written
            .as_str()
            .starts_with("sample 200 300 lower 0 upper ")
    );
    assert!(rt; written.as_str().ends_with(" spent 0\n"));
    assert_eq!(rt; status.code(), 5);
    let (again, _) = ended(alloc, line, "", "")?;
    assert_eq!(rt; again.as_str(), written.as_str());
    Ok(())
}

#[test]
fn a_line_that_is_not_written_is_a_fault(rt: HostRuntime) -> Result<(), Fail> {
    let alloc = rt.alloc();
    let words = words_of(alloc, "xnum sample 3")?;
    let mut input = MemInput::new(Vec::new(alloc), 1, Vec::new(alloc));
    let mut out = MemSink::new(alloc, 9, 1, Vec::new(alloc))?;
    let status = top(alloc, &words, &mut input, &mut out, &mut Vec::new(alloc));
    assert_eq!(rt; status, Status::Write);
    assert_eq!(rt; out.bytes(), b"sample 3 ".as_slice());
    Ok(())
}
