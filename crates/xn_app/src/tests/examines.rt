use super::texts::{EMPTY, K4, K5, K5_AND_TWO};
use super::*;

// Whether `examine` of the text, in which one piece is another, writes this and ends so.
fn examines_so(
    alloc: Global,
    text: &str,
    changed: (&str, &str),
    want: &str,
    code: u8,
) -> Result<bool, Fail> {
    ends_so(alloc, "xnum examine answer", "", text, changed, want, code)
}

#[test]
fn drawings_are_examined(rt: HostRuntime) -> Result<(), Fail> {
    let alloc = rt.alloc();
    let drawn = "drawing crossings 0 nodes 4 edges 6 faces 4 components 1\n";
    assert!(rt; examines_so(alloc, K4, ("", ""), drawn, 0)?);
    let drawn = "drawing crossings 0 nodes 0 edges 0 faces 0 components 0\n";
    assert!(rt; examines_so(alloc, EMPTY, ("", ""), drawn, 0)?);
    let drawn = "drawing crossings 0 nodes 2 edges 0 faces 2 components 2\n";
    assert!(rt; examines_so(alloc, EMPTY, ("graph 0", "graph 2"), drawn, 0)?);
    let drawn = "drawing crossings 1 nodes 6 edges 12 faces 8 components 1\n";
    assert!(rt; examines_so(alloc, K5, ("", ""), drawn, 0)?);
    let drawn = "drawing crossings 1 nodes 10 edges 14 faces 10 components 3\n";
    assert!(rt; examines_so(alloc, K5_AND_TWO, ("", ""), drawn, 0)?);
    Ok(())
}

#[test]
fn flaws_of_form_are_named(rt: HostRuntime) -> Result<(), Fail> {
    let alloc = rt.alloc();
    assert!(rt; examines_so(alloc, "", ("", ""), "refused 1 syntax\n", 1)?);
    let second_format = ("answer 1", "answer 2");
    assert!(rt; examines_so(alloc, K4, second_format, "refused 1 syntax\n", 1)?);
    assert!(rt;
        examines_so(
            alloc,
            K4,
            ("edge 0 1", "edge 00 1"),
            "refused 4 syntax\n",
            1
        )?
    );
    assert!(rt; examines_so(alloc, K4, ("edge 0 1", "edge 0 4"), "refused 4 number\n", 1)?);
    assert!(rt; examines_so(alloc, K4, ("edge 0 1", "edge 1 1"), "refused 4 loop 0\n", 1)?);
    assert!(rt; examines_so(alloc, K4, ("\nend\n", "\nend"), "refused 28 syntax\n", 1)?);
    let no_proof = ("rows 0\ntree\nleaf 1 0\nend\n", "");
    assert!(rt; examines_so(alloc, K4, no_proof, "refused 25 syntax\n", 1)?);
    assert!(rt;
        examines_so(
            alloc,
            K4,
            ("\nend\n", "\nend\n\n"),
            "refused 29 trailing\n",
            1
        )?
    );
    Ok(())
}

#[test]
fn flaws_of_drawings_are_named(rt: HostRuntime) -> Result<(), Fail> {
    let alloc = rt.alloc();
    let torus = (
        "0 11\nturn 1 10\nturn 6 5\nturn 3 9",
        "0 9\nturn 1 10\nturn 6 11\nturn 3 5",
    );
    assert!(rt; examines_so(alloc, K4, torus, "refused 24 genus 4 6 2 1\n", 1)?);
    let turned = ("turn 2 8", "turn 2 2");
    assert!(rt; examines_so(alloc, K4, turned, "refused 24 rotation 1\n", 1)?);
    let miscounted = ("bounds 1 1", "bounds 1 2");
    assert!(rt; examines_so(alloc, K5, miscounted, "refused 38 count 2 1\n", 1)?);
    Ok(())
}

#[test]
fn a_touching_crossing_is_refused(rt: HostRuntime) -> Result<(), Fail> {
    let alloc = rt.alloc();
    let text = K5.replacen(alloc, "6 22\nturn 21 14", "6 21\nturn 1 14", 1)?;
    let last = ("turn 13 1", "turn 13 22");
    assert!(rt; examines_so(alloc, text.as_str(), last, "refused 38 touch 0 9\n", 1)?);
    Ok(())
}

#[test]
fn orders_that_do_not_agree_are_refused(rt: HostRuntime) -> Result<(), Fail> {
    let alloc = rt.alloc();
    let text = K5.replacen(alloc, "along 1 0", "along 0", 1)?;
    let last = ("turn 2 9\n", "");
    assert!(rt; examines_so(alloc, text.as_str(), last, "refused 37 order 0 9\n", 1)?);
    let text = K4.replacen(alloc, "along 0\nalong 0", "along 1 1\nalong 1 0", 1)?;
    let more = ("drawn", "turn 0 0\nturn 0 0\ndrawn");
    assert!(rt; examines_so(alloc, text.as_str(), more, "refused 26 dependent 0 1\n", 1)?);
    Ok(())
}
