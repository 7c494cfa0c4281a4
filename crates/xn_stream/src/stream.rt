// The checker of a text that comes in pieces.
ghost use Rattle.std.specs.Prelude.{◌≡◌, [], Err, IfOk, Some};
ghost use Rattle.std.specs.List.{flat_map};
ghost use Rattle.xn_proof.specs.declared.flaw.AnswerErr.{AnswerErr};
ghost use Rattle.xn_proof.specs.declared.flaw.AnswerErr.TheVariants.{Memory};
ghost use Rattle.xn_check.specs.Gives.{GivesVerdict};
ghost use Rattle.xn_check.specs.Judge.{HaveOneTask, graph_kept};
ghost use Rattle.xn_stream.specs.Stream.{GivesVerdictOn, RefusesByText, StandsForText, StandsOn, answer_by};

use crate::parts::take;
use std::alloc::{AllocError, Global};
use std::marker::Model;
use xn_check::Accepted;
use xn_check::judge::Judge;
use xn_graph::Graph;
use xn_proof::AnswerErr;

/// Checks the text of an answer that comes in pieces, for a graph and so many loops left aside.
///
/// It keeps the graph, the drawing, the rows, one path of the tree and the line that isn't ended yet, and no other
/// text. The time is that of `check_text`: a line is judged once, when its end comes. Contracts see the judge of the
/// lines so far, which has the graph and the loops, the begun line and the refusal; `StandsForText` says which texts
/// these may be.
#[derive(Drop)]
pub struct StreamCheck {
    judge: Judge,
    begun: Vec<u8>,
    refused: Option<AnswerErr>,
}

impl Model for StreamCheck {
    ghost use Rattle.xn_stream.specs.Stream.{IsOpen, Stream, stream_of};

    ghost Value = { Stream };

    ghost view = { λ s. stream_of s.judge s.begun.items s.refused };

    ghost invariant = { λ s. IsOpen (stream_of s.judge s.begun.items s.refused) };
}

impl StreamCheck {
    /// Nothing has come. It fails only for want of memory.
    pub fn start(alloc: Global, graph: Graph, loops: u64) -> Result<StreamCheck, AllocError>
        ensures graph { IfOk result (λ s. graph_kept s.judge ≡ graph) }
        ensures loops { IfOk result (λ s. s.judge.loops ≡ loops) }
        ensures stands { IfOk result (λ s. StandsForText s []) }
    {
        Ok(StreamCheck {
            judge: Judge::new(alloc, &graph, loops)?,
            begun: Vec::new(alloc),
            refused: None,
        })
    }

    /// Takes the next piece of the text. It refuses exactly where the text so far holds the first line that fails its
    /// rule and its end, or a byte behind the line `end`; after a refusal, want of memory included, it answers that
    /// again.
    pub fn feed(&mut self, alloc: Global, piece: &[u8]) -> Result<(), AnswerErr>
        ensures answer { result ≡ answer_by self.new.refused }
        ensures stays { (e : AnswerErr) → self.old.refused ≡ Some e → self.new.refused ≡ Some e }
        ensures task { HaveOneTask self.new.judge self.old.judge }

        // It stands for the text so far and the piece; after want of memory for no text.
        ensures stands { StandsOn self.old piece.now self.new result }
        ensures exactly { RefusesByText self.old piece.now result }
    {
        if let Some(refusal) = self.refused {
            return Err(refusal);
        }
        let result = take(&mut self.judge, &mut self.begun, alloc, piece);
        self.refused = result.err();
        result
    }

    /// The verdict on the text, which has come to its end. After a refusal it answers that refusal.
    pub fn finish(self) -> Result<Accepted, AnswerErr>
        ensures verdict { GivesVerdictOn self result }
        ensures stays { (e : AnswerErr) → self.refused ≡ Some e → result ≡ Err e }
        ensures memory { result ≡ Err Memory → self.refused ≡ Some Memory }
    {
        match self.refused {
            Some(refusal) => Err(refusal),
            None => self.judge.finish(),
        }
    }
}

/// The verdict on a text that comes in these pieces, however it is cut: what `check_text` gives of the whole.
pub fn check_pieces(
    alloc: Global,
    graph: Graph,
    loops: u64,
    pieces: &[Vec<u8>],
) -> Result<Accepted, AnswerErr>
    ensures { GivesVerdict graph loops (flat_map (λ piece. piece.items) pieces.now) result }
{
    let mut stream = StreamCheck::start(alloc, graph, loops)?;
    for piece in pieces {
        stream.feed(alloc, piece)?;
    }
    stream.finish()
}
