use super::*;
use std::alloc::Global;
use std::test::Fail;
use xn_graph::Euler;
use xn_kinds::{DrawFlaw, EvidenceFlaw, Flaw, FlawKind, RowFlaw};

// K5 with one crossing.
const K5: &str = "crossing-answer 1\n\
    graph 5 10\n\
    loops 0\n\
    edge 0 1\n\
    edge 0 2\n\
    edge 0 3\n\
    edge 0 4\n\
    edge 1 2\n\
    edge 1 3\n\
    edge 1 4\n\
    edge 2 3\n\
    edge 2 4\n\
    edge 3 4\n\
    bounds 1 1\n\
    effort 1 300\n\
    along 1 9\n\
    along 0\n\
    along 0\n\
    along 0\n\
    along 0\n\
    along 0\n\
    along 0\n\
    along 0\n\
    along 0\n\
    along 1 0\n\
    turn 6 22\n\
    turn 21 14\n\
    turn 8 16\n\
    turn 4 20\n\
    turn 0 19\n\
    turn 12 18\n\
    turn 3 17\n\
    turn 10 23\n\
    turn 11 7\n\
    turn 5 15\n\
    turn 13 1\n\
    turn 2 9\n\
    drawn\n\
    rows 1\n\
    row 10\n\
    over 0 0\n\
    over 1 0\n\
    over 2 0\n\
    over 3 0\n\
    over 4 0\n\
    over 5 0\n\
    over 6 0\n\
    over 7 0\n\
    over 8 0\n\
    over 9 0\n\
    five 0 1 2 3 4\n\
    path 1 0\n\
    path 1 1\n\
    path 1 2\n\
    path 1 3\n\
    path 1 4\n\
    path 1 5\n\
    path 1 6\n\
    path 1 7\n\
    path 1 8\n\
    path 1 9\n\
    tree\n\
    leaf 1 1 0 1\n\
    end\n";

// What stands after the rows of K5 and before its tree, in an answer with each kind of evidence and of node.
const MORE_ROWS: &str = "row 2\n\
    over 0 1 9\n\
    over 9 1 0\n\
    three 0 1 2 3 4 5\n\
    path 1 0\n\
    path 0\n\
    path 2 1 3\n\
    path 1 4\n\
    path 1 5\n\
    path 1 6\n\
    path 1 7\n\
    path 1 8\n\
    path 1 9\n\
    row 0\n\
    extension 3 0 1 2\n\
    tree\n\
    pair 0 9\n\
    leaf 1 2 0 1 2 5\n\
    place 0 9\n";

// Whether the line for a flaw is this one.
fn says(alloc: Global, line: u64, kind: FlawKind, want: &str) -> Result<bool, Fail> {
    let text = write_flaw(alloc, &Flaw { line, kind })?;
    Ok(text.as_slice() == want.as_bytes())
}

#[test]
fn an_answer_is_read_copied_and_written(rt: HostRuntime) -> Result<(), Fail> {
    let Ok(answer) = read_answer(rt.alloc(), K5.as_bytes()) else {
        return Err("no answer")?;
    };
    let copy = answer.copy(rt.alloc())?;
    let text = write_answer(rt.alloc(), &copy)?;
    assert_eq!(rt; text.as_slice(), K5.as_bytes());
    Ok(())
}

#[test]
fn each_evidence_and_node_is_read_copied_and_written(rt: HostRuntime) -> Result<(), Fail> {
    let alloc = rt.alloc();
    let text = K5.replacen(alloc, "rows 1", "rows 3", 1)?;
    let text = text.replacen(alloc, "tree\n", MORE_ROWS, 1)?;
    let Ok(answer) = read_answer(alloc, text.as_bytes()) else {
        return Err("no answer")?;
    };
    let copy = answer.copy(alloc)?;
    let again = write_answer(alloc, &copy)?;
    assert_eq!(rt; again.as_slice(), text.as_bytes());
    Ok(())
}

#[test]
fn the_line_of_the_drawing_is_told(rt: HostRuntime) -> Result<(), Fail> {
    let Ok(front) = read_front(rt.alloc(), K5.as_bytes()) else {
        return Err("no front")?;
    };
    assert_eq!(rt; front.line, 38);
    Ok(())
}

#[test]
fn flaws_of_drawings_are_written(rt: HostRuntime) -> Result<(), Fail> {
    let alloc = rt.alloc();
    let touch = FlawKind::Draw(DrawFlaw::Touch(0, 9));
    assert!(rt; says(alloc, 38, touch, "refused 38 touch 0 9\n")?);
    let counts = Euler {
        v: 4,
        e: 6,
        f: 2,
        c: 1,
    };
    let genus = FlawKind::Draw(DrawFlaw::Genus(counts));
    assert!(rt; says(alloc, 24, genus, "refused 24 genus 4 6 2 1\n")?);
    let rotation = FlawKind::Draw(DrawFlaw::Rotation(1));
    assert!(rt; says(alloc, 24, rotation, "refused 24 rotation 1\n")?);
    let dependent = FlawKind::Draw(DrawFlaw::Dependent(0, 1));
    assert!(rt; says(alloc, 26, dependent, "refused 26 dependent 0 1\n")?);
    let order = FlawKind::Draw(DrawFlaw::Order(0, 9));
    assert!(rt; says(alloc, 37, order, "refused 37 order 0 9\n")?);
    let count = FlawKind::Count {
        said: 2,
        counted: 1,
    };
    assert!(rt; says(alloc, 38, count, "refused 38 count 2 1\n")?);
    Ok(())
}

#[test]
fn flaws_of_proofs_are_written(rt: HostRuntime) -> Result<(), Fail> {
    let alloc = rt.alloc();
    let weak = FlawKind::Weak {
        bound: -322818021289917153210,
        need: 0,
    };
    assert!(rt;
        says(
            alloc,
            72,
            weak,
            "refused 72 weak -322818021289917153210 0\n"
        )?
    );
    assert!(rt; says(alloc, 72, FlawKind::Number, "refused 72 number\n")?);
    assert!(rt; says(alloc, 76, FlawKind::TreeShape(7), "refused 76 tree 7\n")?);
    assert!(rt; says(alloc, 78, FlawKind::Trailing, "refused 78 trailing\n")?);
    let ends = FlawKind::Row(0, RowFlaw::Evidence(EvidenceFlaw::Ends(0)));
    assert!(rt; says(alloc, 61, ends, "refused 61 row 0 evidence ends 0\n")?);
    let extends = FlawKind::Row(0, RowFlaw::Extends);
    assert!(rt; says(alloc, 51, extends, "refused 51 row 0 extends\n")?);
    Ok(())
}
