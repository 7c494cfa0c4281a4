use super::*;
use std::test::Fail;

// A drawing of K5 in which two edges cross, with the proof that none has fewer crossings: 64 lines.
const K5: &str = "crossing-answer 1
graph 5 10
loops 0
edge 0 1
edge 0 2
edge 0 3
edge 0 4
edge 1 2
edge 1 3
edge 1 4
edge 2 3
edge 2 4
edge 3 4
bounds 1 1
effort 1 300
along 1 9
along 0
along 0
along 0
along 0
along 0
along 0
along 0
along 0
along 1 0
turn 6 22
turn 21 14
turn 8 16
turn 4 20
turn 0 19
turn 12 18
turn 3 17
turn 10 23
turn 11 7
turn 5 15
turn 13 1
turn 2 9
drawn
rows 1
row 10
over 0 0
over 1 0
over 2 0
over 3 0
over 4 0
over 5 0
over 6 0
over 7 0
over 8 0
over 9 0
five 0 1 2 3 4
path 1 0
path 1 1
path 1 2
path 1 3
path 1 4
path 1 5
path 1 6
path 1 7
path 1 8
path 1 9
tree
leaf 1 1 0 1
end
";

// How many lines of a text are taken one by one, and whether they come to the end.
fn taken(alloc: Global, text: &str) -> Result<(u64, bool), Fail> {
    let mut forms = Forms::new();
    let mut count: u64 = 0;
    for line in text.lines() {
        let _item = forms.line(alloc, line.as_bytes(), true)?;
        count = count.saturating_add(1);
    }
    Ok((count, forms.done()))
}

#[test]
fn answers_are_taken_line_by_line(rt: HostRuntime) -> Result<(), Fail> {
    assert_eq!(rt; taken(rt.alloc(), K5)?, (64, true));
    Ok(())
}
