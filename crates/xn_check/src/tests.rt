use super::*;
use std::alloc::Global;
use std::test::Fail;
use texts::{K4, K5, SPLIT, WEAK};
use xn_graph::Graph;
use xn_proof::{AnswerErr, read_answer, write_flaw};

mod texts;

// The graph of an answer.
fn graph_of(alloc: Global, text: &str) -> Result<Graph, Fail> {
    let Ok(answer) = read_answer(alloc, text.as_bytes()) else {
        return Err("no answer")?;
    };
    Ok(answer.graph.copy(alloc)?)
}

// The line for a refusal.
fn refusal(alloc: Global, error: AnswerErr) -> Result<String, Fail> {
    let AnswerErr::Refused(flaw) = error else {
        return Err("no memory")?;
    };
    Ok(String::from_utf8(write_flaw(alloc, &flaw)?)?)
}

// The line for a verdict.
fn line_of(alloc: Global, verdict: Result<Accepted, AnswerErr>) -> Result<String, Fail> {
    match verdict {
        Ok(bounds) => Ok(format!(in alloc; "accepted {} {}\n", bounds.lower, bounds.upper)?),
        Err(error) => refusal(alloc, error),
    }
}

// Whether this is said of an answer, in which one piece is another, for the graph that it had.
fn checks_to(alloc: Global, answer: &str, changed: (&str, &str), want: &str) -> Result<bool, Fail> {
    let graph = graph_of(alloc, answer)?;
    let (old, new) = changed;
    let text = answer.replacen(alloc, old, new, 1)?;
    let line = line_of(alloc, check_text(alloc, &graph, 0, text.as_bytes()))?;
    Ok(line.as_str() == want)
}

// Whether the drawing is refused so for the graph of another answer.
fn draw_refuses(alloc: Global, of: &str, answer: &str, want: &str) -> Result<bool, Fail> {
    let graph = graph_of(alloc, of)?;
    match draw_text(alloc, &graph, 0, answer.as_bytes()) {
        Ok(_) => Ok(false),
        Err(error) => Ok(refusal(alloc, error)?.as_str() == want),
    }
}

#[test]
fn answers_are_accepted(rt: HostRuntime) -> Result<(), Fail> {
    let alloc = rt.alloc();
    assert!(rt; checks_to(alloc, K4, ("", ""), "accepted 0 0\n")?);
    assert!(rt; checks_to(alloc, K5, ("", ""), "accepted 1 1\n")?);
    assert!(rt; checks_to(alloc, K5, ("bounds 1 1", "bounds 0 1"), "accepted 0 1\n")?);
    assert!(rt; checks_to(alloc, SPLIT, ("", ""), "accepted 1 1\n")?);
    Ok(())
}

#[test]
fn an_answer_is_checked(rt: HostRuntime) -> Result<(), Fail> {
    let Ok(answer) = read_answer(rt.alloc(), K5.as_bytes()) else {
        return Err("no answer")?;
    };
    let line = line_of(rt.alloc(), check(rt.alloc(), &answer.graph, 0, &answer))?;
    assert_eq!(rt; line.as_str(), "accepted 1 1\n");
    Ok(())
}

#[test]
fn other_inputs_are_refused(rt: HostRuntime) -> Result<(), Fail> {
    let alloc = rt.alloc();
    let k5 = graph_of(alloc, K5)?;
    let line = line_of(alloc, check_text(alloc, &k5, 0, K4.as_bytes()))?;
    assert_eq!(rt; line.as_str(), "refused 2 size-differs\n");
    let line = line_of(alloc, check_text(alloc, &k5, 1, K5.as_bytes()))?;
    assert_eq!(rt; line.as_str(), "refused 3 size-differs\n");
    let turned = ("edge 0 1", "edge 1 0");
    assert!(rt; checks_to(alloc, K5, turned, "refused 4 edge-differs 0\n")?);
    Ok(())
}

#[test]
fn a_touching_crossing_is_refused(rt: HostRuntime) -> Result<(), Fail> {
    let alloc = rt.alloc();
    let graph = graph_of(alloc, K5)?;
    let text = K5.replacen(alloc, "6 22\nturn 21 14", "6 21\nturn 1 14", 1)?;
    let text = text.replacen(alloc, "turn 13 1", "turn 13 22", 1)?;
    let line = line_of(alloc, check_text(alloc, &graph, 0, text.as_bytes()))?;
    assert_eq!(rt; line.as_str(), "refused 38 touch 0 9\n");
    assert!(rt; draw_refuses(alloc, K5, text.as_str(), "refused 38 touch 0 9\n")?);
    Ok(())
}

#[test]
fn weak_leaves_are_refused(rt: HostRuntime) -> Result<(), Fail> {
    let alloc = rt.alloc();
    let weak = "refused 72 weak -322818021289917153210 0\n";
    assert!(rt; checks_to(alloc, WEAK, ("", ""), weak)?);
    let large = ("775807", "775808");
    assert!(rt; checks_to(alloc, WEAK, large, "refused 72 number\n")?);
    let one = ("9223372036854775807", "1");
    assert!(rt; checks_to(alloc, WEAK, one, "refused 72 weak 0 0\n")?);
    assert!(rt;
        checks_to(
            alloc,
            K5,
            ("bounds 1 1", "bounds 2 1"),
            "refused 63 weak 1 1\n"
        )?
    );
    let large = (
        "leaf 1 1 0 1",
        "leaf 9223372036854775807 1 0 9223372036854775807",
    );
    assert!(rt; checks_to(alloc, SPLIT, large, "accepted 1 1\n")?);
    let none = ("leaf 1 1 0 1", "leaf 0 1 0 1");
    assert!(rt; checks_to(alloc, SPLIT, none, "refused 70 number\n")?);
    Ok(())
}

#[test]
fn trees_of_another_shape_are_refused(rt: HostRuntime) -> Result<(), Fail> {
    let alloc = rt.alloc();
    let short = ("leaf 1 1 0 1\nend", "end");
    assert!(rt; checks_to(alloc, SPLIT, short, "refused 76 tree 7\n")?);
    let behind = ("\nend\n", "\nend\nend\n");
    assert!(rt; checks_to(alloc, SPLIT, behind, "refused 78 trailing\n")?);
    let greater = ("pair 10 11", "pair 11 10");
    assert!(rt; checks_to(alloc, SPLIT, greater, "refused 69 tree 0\n")?);
    let twice = ("leaf 1 1 0 1", "leaf 1 2 0 1 0 1");
    assert!(rt; checks_to(alloc, SPLIT, twice, "refused 70 tree 1\n")?);
    let uncrossed = ("place 10 11", "place 10 9");
    assert!(rt; checks_to(alloc, SPLIT, uncrossed, "refused 73 tree 4\n")?);
    let again = ("place 10 0", "place 10 11");
    assert!(rt; checks_to(alloc, SPLIT, again, "refused 74 tree 5\n")?);
    Ok(())
}

#[test]
fn forged_rows_are_refused(rt: HostRuntime) -> Result<(), Fail> {
    let alloc = rt.alloc();
    let more = ("row 10", "row 11");
    assert!(rt; checks_to(alloc, K5, more, "refused 40 number\n")?);
    let edge = ("over 0 0", "over 1 0");
    assert!(rt; checks_to(alloc, K5, edge, "refused 61 row 0 edge 1\n")?);
    let order = ("over 0 0", "over 0 1 9");
    assert!(rt; checks_to(alloc, K5, order, "refused 61 row 0 order 0 9\n")?);
    let close = ("over 0 0\nover 1 0", "over 0 1 1\nover 1 1 0");
    assert!(rt; checks_to(alloc, K5, close, "refused 61 row 0 dependent 0 1\n")?);
    Ok(())
}

#[test]
fn forged_evidence_is_refused(rt: HostRuntime) -> Result<(), Fail> {
    let alloc = rt.alloc();
    let branch = ("five 0 1 2 3 4", "five 0 1 2 3 3");
    assert!(rt; checks_to(alloc, K5, branch, "refused 61 row 0 evidence branch 4\n")?);
    let broken = ("path 1 0", "path 1 10");
    assert!(rt; checks_to(alloc, K5, broken, "refused 61 row 0 evidence broken 0\n")?);
    let ends = ("path 1 0", "path 1 1");
    assert!(rt; checks_to(alloc, K5, ends, "refused 61 row 0 evidence ends 0\n")?);
    let twice = ("path 1 0", "path 3 0 0 0");
    assert!(rt; checks_to(alloc, K5, twice, "refused 61 row 0 evidence twice 0\n")?);
    Ok(())
}

// What is said of the answer of K5, whose evidence is a list of segments.
fn by_extension(alloc: Global, list: &str) -> Result<String, Fail> {
    let graph = graph_of(alloc, K5)?;
    let Some((before, rest)) = K5.split_once("five") else {
        return Err("no evidence")?;
    };
    let Some((_, after)) = rest.split_once("path 1 9\n") else {
        return Err("no last path")?;
    };
    let text = format!(in alloc; "{}extension {}\n{}", before, list, after)?;
    line_of(alloc, check_text(alloc, &graph, 0, text.as_bytes()))
}

#[test]
fn extensions_are_tested(rt: HostRuntime) -> Result<(), Fail> {
    let alloc = rt.alloc();
    let line = by_extension(alloc, "1 0")?;
    assert_eq!(rt; line.as_str(), "refused 51 row 0 extends\n");
    let line = by_extension(alloc, "2 0 0")?;
    assert_eq!(rt; line.as_str(), "refused 51 row 0 evidence list 1\n");
    let line = by_extension(alloc, "10 0 1 2 3 4 5 6 7 8 9")?;
    assert_eq!(rt; line.as_str(), "accepted 1 1\n");
    Ok(())
}

#[test]
fn drawings_are_taken_from_answers(rt: HostRuntime) -> Result<(), Fail> {
    let alloc = rt.alloc();
    let graph = graph_of(alloc, WEAK)?;
    let Ok(drawing) = draw_text(alloc, &graph, 0, WEAK.as_bytes()) else {
        return Err("no drawing")?;
    };
    assert_eq!(rt; drawing.orders.len(), 12);
    assert_eq!(rt; drawing.next.len(), 28);
    assert!(rt; draw_refuses(alloc, K5, K4, "refused 2 size-differs\n")?);
    let turned = K5.replacen(alloc, "edge 0 1", "edge 1 0", 1)?;
    assert!(rt; draw_refuses(alloc, K5, turned.as_str(), "refused 4 edge-differs 0\n")?);
    let miscounted = K5.replacen(alloc, "bounds 1 1", "bounds 1 2", 1)?;
    assert!(rt; draw_refuses(alloc, K5, miscounted.as_str(), "refused 38 count 2 1\n")?);
    Ok(())
}
