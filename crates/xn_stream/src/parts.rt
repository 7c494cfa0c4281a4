// A piece is cut into parts of lines; a line is judged once it is ended.
ghost use Rattle.std.specs.Prelude.{◌<◌, true, IfOk, length};
ghost use Rattle.xn_text.specs.Pieces.{Lacks};
ghost use Rattle.xn_check.specs.Judge.{HaveOneTask, IsReady};
ghost use Rattle.xn_stream.specs.Pieces.{with_end};
ghost use Rattle.xn_stream.specs.Stream.{LeadsOn};

use std::alloc::Global;
use xn_check::judge::Judge;
use xn_proof::AnswerErr;
use xn_text::Lines;

/// Takes a piece of the text that comes next. After a refusal or want of memory nothing may follow.
pub fn take(
    judge: &mut Judge,
    begun: &mut Vec<u8>,
    alloc: Global,
    piece: &[u8],
) -> Result<(), AnswerErr>
    requires { IsReady judge.old }
    ensures ready { IfOk result (λ _. IsReady judge.new) }
    ensures task { HaveOneTask judge.new judge.old }
    ensures finds { LeadsOn judge.old begun.old.items piece.now judge.new begun.new.items result }
{
    let mut parts = Lines::new(piece);
    while let Some(part) = parts.next() {
        take_part(judge, begun, alloc, part.bytes, part.ended)?;
    }
    Ok(())
}

// Takes a part of a line, and judges the line where that is its end. Behind the line `end` any byte is judged.
fn take_part(
    judge: &mut Judge,
    begun: &mut Vec<u8>,
    alloc: Global,
    bytes: &[u8],
    ended: bool,
) -> Result<(), AnswerErr>
    requires ready { IsReady judge.old }
    requires lacks { Lacks 10 bytes.now }
    requires some { 0 < length (with_end bytes.now ended) }
    ensures ready { IfOk result (λ _. IsReady judge.new) }
    ensures task { HaveOneTask judge.new judge.old }
    ensures finds { LeadsOn judge.old begun.old.items (with_end bytes.now ended) judge.new begun.new.items result }
{
    if judge.is_at_end() {
        return judge.line(alloc, bytes, ended);
    }
    if !ended {
        begun.extend_from_slice(bytes)?;
        return Ok(());
    }
    end_line(judge, begun, alloc, bytes)
}

// Judges the begun line, of which these are the last bytes.
fn end_line(
    judge: &mut Judge,
    begun: &mut Vec<u8>,
    alloc: Global,
    bytes: &[u8],
) -> Result<(), AnswerErr>
    requires ready { IsReady judge.old }
    requires lacks { Lacks 10 bytes.now }
    ensures ready { IfOk result (λ _. IsReady judge.new) }
    ensures task { HaveOneTask judge.new judge.old }
    ensures finds { LeadsOn judge.old begun.old.items (with_end bytes.now true) judge.new begun.new.items result }
{
    if begun.is_empty() {
        return judge.line(alloc, bytes, true);
    }
    begun.extend_from_slice(bytes)?;
    let result = judge.line(alloc, begun.as_slice(), true);
    begun.clear();
    result
}
