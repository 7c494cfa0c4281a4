// The line that says where an answer is refused, and why.
ghost use Rattle.std.specs.Prelude.{◌≡◌, IfOk};
ghost use Rattle.std.specs.String.{string_bytes};
ghost use Rattle.xn_proof.specs.Refusal.{draw_words, evidence_words, flaw_line, genus_words, kind_words, row_words};

use std::alloc::{AllocError, Global};
use xn_graph::Euler;
use xn_kinds::{DrawFlaw, EvidenceFlaw, Flaw, FlawKind, RowFlaw};

/// The line for a flaw: `refused`, the number of the line, and words for its kind. It fails only for want of memory.
pub fn write_flaw(alloc: Global, flaw: &Flaw) -> Result<Vec<u8>, AllocError>
    ensures { IfOk result (λ line. line.items ≡ flaw_line flaw.now) }
{
    let line = flaw.line;
    let words = kind_words(alloc, &flaw.kind)?;
    let text = format!(in alloc; "refused {line} {words}\n")?;
    Ok(text.into_bytes())
}

fn kind_words(alloc: Global, kind: &FlawKind) -> Result<String, AllocError>
    ensures { IfOk result (λ words. string_bytes words ≡ kind_words kind.now) }
{
    match *kind {
        FlawKind::Syntax => format!(in alloc; "syntax"),
        FlawKind::Number => format!(in alloc; "number"),
        FlawKind::Loop(e) => format!(in alloc; "loop {e}"),
        FlawKind::SizeDiffers => format!(in alloc; "size-differs"),
        FlawKind::GraphDiffers(e) => format!(in alloc; "edge-differs {e}"),
        FlawKind::Draw(flaw) => draw_words(alloc, flaw),
        FlawKind::Count { said, counted } => format!(in alloc; "count {said} {counted}"),
        FlawKind::Row(i, flaw) => {
            let words = row_words(alloc, flaw)?;
            format!(in alloc; "row {i} {words}")
        }
        FlawKind::TreeShape(n) => format!(in alloc; "tree {n}"),
        FlawKind::Weak { bound, need } => format!(in alloc; "weak {bound} {need}"),
        FlawKind::Trailing => format!(in alloc; "trailing"),
    }
}

fn draw_words(alloc: Global, flaw: DrawFlaw) -> Result<String, AllocError>
    ensures { IfOk result (λ words. string_bytes words ≡ draw_words flaw) }
{
    match flaw {
        DrawFlaw::Length => format!(in alloc; "length"),
        DrawFlaw::Order(e, f) => format!(in alloc; "order {e} {f}"),
        DrawFlaw::Dependent(e, f) => format!(in alloc; "dependent {e} {f}"),
        DrawFlaw::Rotation(dart) => format!(in alloc; "rotation {dart}"),
        DrawFlaw::Touch(e, f) => format!(in alloc; "touch {e} {f}"),
        DrawFlaw::Genus(counts) => genus_words(alloc, counts),
    }
}

fn genus_words(alloc: Global, counts: Euler) -> Result<String, AllocError>
    ensures { IfOk result (λ words. string_bytes words ≡ genus_words counts) }
{
    let v = counts.v;
    let e = counts.e;
    let f = counts.f;
    let c = counts.c;
    format!(in alloc; "genus {v} {e} {f} {c}")
}

fn row_words(alloc: Global, flaw: RowFlaw) -> Result<String, AllocError>
    ensures { IfOk result (λ words. string_bytes words ≡ row_words flaw) }
{
    match flaw {
        RowFlaw::Edge(e) => format!(in alloc; "edge {e}"),
        RowFlaw::Order(e, f) => format!(in alloc; "order {e} {f}"),
        RowFlaw::Dependent(e, f) => format!(in alloc; "dependent {e} {f}"),
        RowFlaw::Evidence(flaw) => {
            let words = evidence_words(alloc, flaw)?;
            format!(in alloc; "evidence {words}")
        }
        RowFlaw::Extends => format!(in alloc; "extends"),
    }
}

fn evidence_words(alloc: Global, flaw: EvidenceFlaw) -> Result<String, AllocError>
    ensures { IfOk result (λ words. string_bytes words ≡ evidence_words flaw) }
{
    match flaw {
        EvidenceFlaw::Branch(i) => format!(in alloc; "branch {i}"),
        EvidenceFlaw::Broken(i) => format!(in alloc; "broken {i}"),
        EvidenceFlaw::Ends(i) => format!(in alloc; "ends {i}"),
        EvidenceFlaw::Twice(s) => format!(in alloc; "twice {s}"),
        EvidenceFlaw::Inner(v) => format!(in alloc; "inner {v}"),
        EvidenceFlaw::List(i) => format!(in alloc; "list {i}"),
    }
}
