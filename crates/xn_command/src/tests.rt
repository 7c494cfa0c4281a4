use super::*;
use std::alloc::Global;
use std::test::Fail;

// What the words of a line ask for, as a line, where each space parts two words.
fn asked(alloc: Global, line: &str) -> Result<String, Fail> {
    let mut words = Vec::new(alloc);
    for word in line.split(' ') {
        words.push(String::from_str(alloc, word)?)?;
    }
    let shown = match read_words(alloc, &words) {
        Ok(Command::Solve { graph, budget }) => format!(in alloc; "solve {graph} {budget}")?,
        Ok(Command::Sample { nodes, budget }) => format!(in alloc; "sample {nodes} {budget}")?,
        Ok(Command::Check { graph, answer }) => format!(in alloc; "check {graph} {answer}")?,
        Ok(Command::Examine { answer }) => format!(in alloc; "examine {answer}")?,
        Ok(Command::Draw { graph, answer }) => format!(in alloc; "draw {graph} {answer}")?,
        Err(error) => format!(in alloc; "{error}")?,
    };
    Ok(shown)
}

fn asks(alloc: Global, line: &str, want: &str) -> Result<bool, Fail> {
    let shown = asked(alloc, line)?;
    Ok(shown.as_str() == want)
}

fn is_refused(alloc: Global, line: &str) -> Result<bool, Fail> {
    asks(alloc, line, "no command")
}

#[test]
fn commands_are_read(rt: HostRuntime) -> Result<(), Fail> {
    let alloc = rt.alloc();
    assert!(rt; asks(alloc, "xnum check a b", "check a b")?);
    assert!(rt; asks(alloc, "xnum examine a", "examine a")?);
    assert!(rt; asks(alloc, "xnum draw a b", "draw a b")?);
    assert!(rt; asks(alloc, "xnum -- examine a", "examine a")?);
    assert!(rt; asks(alloc, "xnum examine -- -x", "examine -x")?);
    assert!(rt; asks(alloc, "xnum examine -- --", "examine --")?);
    assert!(rt; asks(alloc, "xnum check - -- --budget", "check - --budget")?);
    assert!(rt; asks(alloc, "xnum draw  b", "draw  b")?);
    assert!(rt; asks(alloc, " examine a=b", "examine a=b")?);
    Ok(())
}

#[test]
fn budgets_are_read(rt: HostRuntime) -> Result<(), Fail> {
    let alloc = rt.alloc();
    assert!(rt; asks(alloc, "xnum solve a", "solve a 10000")?);
    assert!(rt; asks(alloc, "xnum -- solve a", "solve a 10000")?);
    assert!(rt; asks(alloc, "xnum solve -- --budget", "solve --budget 10000")?);
    assert!(rt; asks(alloc, "xnum --budget=5 solve a", "solve a 5")?);
    assert!(rt; asks(alloc, "xnum solve --budget 300 a", "solve a 300")?);
    assert!(rt; asks(alloc, "xnum solve a --budget 0", "solve a 0")?);
    assert!(rt; asks(alloc, "xnum solve a --budget 200000", "solve a 200000")?);
    assert!(rt; asks(alloc, "xnum --budget 7 -- solve -x", "solve -x 7")?);
    Ok(())
}

#[test]
fn numbers_of_nodes_are_read(rt: HostRuntime) -> Result<(), Fail> {
    let alloc = rt.alloc();
    assert!(rt; asks(alloc, "xnum sample 8", "sample 8 10000")?);
    assert!(rt; asks(alloc, "xnum sample 3 --budget 0", "sample 3 0")?);
    assert!(rt; asks(alloc, "xnum --budget=7 sample -- 400", "sample 400 7")?);
    assert!(rt; is_refused(alloc, "xnum sample 2")?);
    assert!(rt; is_refused(alloc, "xnum sample 401")?);
    assert!(rt; is_refused(alloc, "xnum sample 4294967299")?);
    assert!(rt; is_refused(alloc, "xnum sample 08")?);
    assert!(rt; is_refused(alloc, "xnum sample x")?);
    assert!(rt; is_refused(alloc, "xnum sample 8 x")?);
    assert!(rt; is_refused(alloc, "xnum sample 8 --budget 200001")?);
    assert!(rt; is_refused(alloc, "xnum sample")?);
    Ok(())
}

#[test]
fn words_that_name_no_command_are_refused(rt: HostRuntime) -> Result<(), Fail> {
    let alloc = rt.alloc();
    assert!(rt; is_refused(alloc, "xnum")?);
    assert!(rt; is_refused(alloc, "xnum solve")?);
    assert!(rt; is_refused(alloc, "xnum solve a b")?);
    assert!(rt; is_refused(alloc, "xnum check a")?);
    assert!(rt; is_refused(alloc, "xnum cross a")?);
    assert!(rt; is_refused(alloc, "xnum examine a b")?);
    assert!(rt; is_refused(alloc, "xnum check a b c")?);
    assert!(rt; is_refused(alloc, "xnum Examine a")?);
    Ok(())
}

#[test]
fn words_that_are_no_budget_are_refused(rt: HostRuntime) -> Result<(), Fail> {
    let alloc = rt.alloc();
    assert!(rt; is_refused(alloc, "xnum solve a --budget 200001")?);
    assert!(rt; is_refused(alloc, "xnum solve a --budget 18446744073709551616")?);
    assert!(rt; is_refused(alloc, "xnum solve a --budget 07")?);
    assert!(rt; is_refused(alloc, "xnum solve a --budget +7")?);
    assert!(rt; is_refused(alloc, "xnum solve a --budget -7")?);
    assert!(rt; is_refused(alloc, "xnum solve a --budget=-7")?);
    assert!(rt; is_refused(alloc, "xnum solve a --budget -")?);
    assert!(rt; is_refused(alloc, "xnum solve a --budget=")?);
    assert!(rt; is_refused(alloc, "xnum --budget -- solve a")?);
    Ok(())
}

#[test]
fn budgets_that_stand_wrong_are_refused(rt: HostRuntime) -> Result<(), Fail> {
    let alloc = rt.alloc();
    assert!(rt; is_refused(alloc, "xnum solve a --budget")?);
    assert!(rt; is_refused(alloc, "xnum solve a --budget 1 --budget 1")?);
    assert!(rt; is_refused(alloc, "xnum solve -- a --budget 1")?);
    assert!(rt; is_refused(alloc, "xnum solve a b --budget 1")?);
    assert!(rt; is_refused(alloc, "xnum draw a b --budget 1")?);
    assert!(rt; is_refused(alloc, "xnum check a b --budget 1")?);
    assert!(rt; is_refused(alloc, "xnum --budget=5 examine a")?);
    assert!(rt; is_refused(alloc, "xnum --budget=5 cross a")?);
    assert!(rt; is_refused(alloc, "xnum --bud 5 solve a")?);
    Ok(())
}

#[test]
fn other_options_are_refused(rt: HostRuntime) -> Result<(), Fail> {
    let alloc = rt.alloc();
    assert!(rt; is_refused(alloc, "xnum solve a -x")?);
    assert!(rt; is_refused(alloc, "xnum examine --")?);
    assert!(rt; is_refused(alloc, "xnum examine -x")?);
    assert!(rt; is_refused(alloc, "xnum examine -1")?);
    Ok(())
}

#[test]
fn requests_for_help_are_refused(rt: HostRuntime) -> Result<(), Fail> {
    let alloc = rt.alloc();
    assert!(rt; is_refused(alloc, "xnum -h")?);
    assert!(rt; is_refused(alloc, "xnum --help")?);
    assert!(rt; is_refused(alloc, "xnum examine a --help")?);
    assert!(rt; is_refused(alloc, "xnum --version")?);
    assert!(rt; is_refused(alloc, "xnum help examine")?);
    Ok(())
}

#[test]
fn no_words_at_all_are_refused(rt: HostRuntime) -> Result<(), Fail> {
    let alloc = rt.alloc();
    let words = Vec::new(alloc);
    assert!(rt; matches!(read_words(alloc, &words), Err(WordsErr::Refused)));
    Ok(())
}
