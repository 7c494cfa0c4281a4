use super::*;
use std::alloc::Global;
use std::test::Fail;
use texts::K5;
use xn_check::Accepted;
use xn_graph::Graph;
use xn_kinds::{Flaw, FlawKind};
use xn_proof::{AnswerErr, read_answer, write_flaw};

mod texts;

// K5.
fn k5(alloc: Global) -> Result<Graph, Fail> {
    let Ok(answer) = read_answer(alloc, K5.as_bytes()) else {
        return Err("no answer")?;
    };
    Ok(answer.graph.copy(alloc)?)
}

// The line for a refusal.
fn refusal(alloc: Global, error: AnswerErr) -> Result<String, Fail> {
    let AnswerErr::Refused(flaw) = error else {
        return Err("no memory")?;
    };
    Ok(String::from_utf8(write_flaw(alloc, &flaw)?)?)
}

// The line for a verdict.
fn line_of(alloc: Global, verdict: Result<Accepted, AnswerErr>) -> Result<String, Fail> {
    match verdict {
        Ok(bounds) => Ok(format!(in alloc; "accepted {} {}\n", bounds.lower, bounds.upper)?),
        Err(error) => refusal(alloc, error),
    }
}

// The text in pieces of this size, and one that is shorter or empty.
fn cut(alloc: Global, text: &[u8], size: usize) -> Result<Vec<Vec<u8>>, Fail> {
    let mut pieces = Vec::new(alloc);
    let mut piece = Vec::new(alloc);
    for byte in text {
        piece.push(*byte)?;
        if piece.len() == size {
            pieces.push(piece)?;
            piece = Vec::new(alloc);
        }
    }
    pieces.push(piece)?;
    Ok(pieces)
}

// Whether this is said of a text in pieces of this size.
fn says(alloc: Global, text: &str, size: usize, want: &str) -> Result<bool, Fail> {
    let pieces = cut(alloc, text.as_bytes(), size)?;
    let verdict = check_pieces(alloc, k5(alloc)?, 0, pieces.as_slice());
    Ok(line_of(alloc, verdict)?.as_str() == want)
}

// Whether this is said of the answer of K5, in which one piece is another, however it is cut.
fn comes_to(alloc: Global, changed: (&str, &str), want: &str) -> Result<bool, Fail> {
    let (old, new) = changed;
    let text = K5.replacen(alloc, old, new, 1)?;
    for size in [1, 7, 4_096, 1_000_000] {
        if !says(alloc, text.as_str(), size, want)? {
            return Ok(false);
        }
    }
    Ok(true)
}

#[test]
fn answers_in_pieces(rt: HostRuntime) -> Result<(), Fail> {
    let alloc = rt.alloc();
    assert!(rt; comes_to(alloc, ("", ""), "accepted 1 1\n")?);
    assert!(rt; comes_to(alloc, ("bounds 1 1", "bounds 0 1"), "accepted 0 1\n")?);
    assert!(rt;
        comes_to(
            alloc,
            ("bounds 1 1", "bounds 1 2"),
            "refused 38 count 2 1\n"
        )?
    );
    assert!(rt; comes_to(alloc, ("bounds 1 1", "bounds 2 1"), "refused 63 weak 1 1\n")?);
    assert!(rt;
        comes_to(
            alloc,
            ("graph 5 10", "graph 5 9"),
            "refused 2 size-differs\n"
        )?
    );
    assert!(rt;
        comes_to(
            alloc,
            ("edge 0 1", "edge 1 0"),
            "refused 4 edge-differs 0\n"
        )?
    );
    assert!(rt;
        comes_to(
            alloc,
            ("path 1 0", "path 1 10"),
            "refused 61 row 0 evidence broken 0\n"
        )?
    );
    assert!(rt;
        comes_to(
            alloc,
            ("tree\nleaf 1 1 0 1\nend", "tree\nend"),
            "refused 63 tree 0\n"
        )?
    );
    assert!(rt; comes_to(alloc, ("\nend\n", "\nend"), "refused 64 syntax\n")?);
    assert!(rt; comes_to(alloc, ("\nend\n", "\n"), "refused 64 syntax\n")?);
    assert!(rt; comes_to(alloc, ("\nend\n", "\nend\ne"), "refused 65 trailing\n")?);
    Ok(())
}

// The refusal of the line with this number.
fn refused(line: u64, kind: FlawKind) -> Result<(), AnswerErr> {
    Err(AnswerErr::Refused(Flaw { line, kind }))
}

#[test]
fn a_refusal_stays(rt: HostRuntime) -> Result<(), Fail> {
    let alloc = rt.alloc();
    let mut stream = StreamCheck::start(alloc, k5(alloc)?, 0)?;
    assert!(rt; stream.feed(alloc, b"crossing-answer 1\n").is_ok());
    let want = refused(2, FlawKind::SizeDiffers);
    assert!(rt; stream.feed(alloc, b"graph 5 9\n") == want);
    assert!(rt; stream.feed(alloc, K5.as_bytes()) == want);
    assert!(rt; stream.finish().is_err());
    Ok(())
}

#[test]
fn a_byte_behind_the_end(rt: HostRuntime) -> Result<(), Fail> {
    let alloc = rt.alloc();
    let mut stream = StreamCheck::start(alloc, k5(alloc)?, 0)?;
    assert!(rt; stream.feed(alloc, K5.as_bytes()).is_ok());
    assert!(rt; stream.feed(alloc, b"").is_ok());
    assert!(rt; stream.feed(alloc, b"e") == refused(65, FlawKind::Trailing));
    Ok(())
}

#[test]
fn a_line_is_judged_at_its_end(rt: HostRuntime) -> Result<(), Fail> {
    let alloc = rt.alloc();
    let mut stream = StreamCheck::start(alloc, k5(alloc)?, 0)?;
    assert!(rt; stream.feed(alloc, b"no answer").is_ok());
    assert!(rt; stream.feed(alloc, b"\n") == refused(1, FlawKind::Syntax));
    Ok(())
}
