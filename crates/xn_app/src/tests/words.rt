use super::*;

#[test]
fn other_words_are_refused(rt: HostRuntime) -> Result<(), Fail> {
    let alloc = rt.alloc();
    for line in [
        "",
        "xnum",
        "xnum examine",
        "xnum cross a",
        "xnum solve a b",
        "xnum solve a --budget 07",
        "xnum check a",
        "xnum examine a b",
        "xnum examine a -x",
        "xnum draw a b --budget 1",
        "xnum sample 2",
        "xnum sample 401",
        "xnum sample 8 x",
        "xnum check a b --budget",
    ] {
        let (written, status) = ended(alloc, line, "", "")?;
        assert_eq!(rt; written.as_str(), "");
        assert_eq!(rt; status, Status::Words);
    }
    Ok(())
}

#[test]
fn two_dashes_end_the_options(rt: HostRuntime) -> Result<(), Fail> {
    let alloc = rt.alloc();
    let (_, status) = ended(alloc, "xnum -- examine answer", "", "")?;
    assert_eq!(rt; status.code(), 1);
    Ok(())
}
