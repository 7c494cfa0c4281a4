// The drawing of an answer, whatever its graph, judged line by line.
ghost use Rattle.std.specs.Prelude.{◌≡◌, IfOk, MatchResult};
ghost use Rattle.xn_proof.specs.Forms.{start_state};
ghost use Rattle.xn_check.specs.FrontFits.{FrontStands};
ghost use Rattle.xn_check.specs.FrontSaid.{no_front, no_seen, seen_at};
ghost use Rattle.xn_check.specs.Judging.{RefusesLine, Took, at_end};
ghost use Rattle.xn_check.specs.Meaning.{FrontAgrees, FrontBreaks};
ghost use Rattle.xn_check.specs.Verdict.{front_rules};

use crate::front::FrontPart;
use crate::refusals::refused;
use std::alloc::Global;
use std::marker::Model;
use xn_draw::Seen;
use xn_graph::Euler;
use xn_kinds::FlawKind;
use xn_proof::{AnswerErr, Forms, Item};

/// Judges the drawing of an answer line by line, as one of the graph that the answer says, and keeps what is seen of it. Of the
/// rows and the tree it asks that they keep their forms.
#[derive(Drop)]
pub struct FrontJudge {
    forms: Forms,
    front: FrontPart,
    seen: Seen,
}

impl Model for FrontJudge {
    ghost use Rattle.xn_proof.specs.Forms.{Reached};
    ghost use Rattle.xn_check.specs.FrontSaid.{FrontSeen, seeing};

    ghost Value = { Reached × FrontSeen };

    ghost view = { λ j. (j.forms, seeing j.front j.seen) };
}

impl FrontJudge {
    /// The judge before the first line. No memory is taken.
    pub fn new(alloc: Global) -> FrontJudge
        ensures { result ≡ (start_state, record { front = no_front; seen = no_seen }) }
    {
        let euler = Euler {
            v: 0,
            e: 0,
            f: 0,
            c: 0,
        };
        FrontJudge {
            forms: Forms::new(),
            front: FrontPart::new(alloc),
            seen: Seen {
                crossings: 0,
                euler,
            },
        }
    }

    /// Judges the next line, given without the byte 10, and whether it has that byte. After a refusal or want of memory no line
    /// may follow.
    pub fn line(&mut self, alloc: Global, bytes: &[u8], ended: bool) -> Result<(), AnswerErr>
        requires { FrontStands self.old.0.1 self.old.1.front }
        ensures took { Took front_rules self.old.0 self.old.1 (bytes.now, ended) self.new.0 self.new.1 result }
        ensures ready { IfOk result (λ _. FrontStands self.new.0.1 self.new.1.front) }
    {
        let number = self.forms.number();
        let item = self.forms.line(alloc, bytes, ended)?;
        self.seen = self.seen_at(alloc, number, &item)?;
        Ok(self.front.keep(item)?)
    }

    /// What is seen of the drawing, where the answer has come to its end.
    pub fn finish(&self) -> Result<Seen, AnswerErr>
        ensures { result ≡ at_end self.now.0 self.now.1.seen }
    {
        if !self.forms.done() {
            return Err(refused(self.forms.number(), FlawKind::Syntax));
        }
        Ok(self.seen)
    }

    // What is seen after the line with this number.
    fn seen_at(&self, alloc: Global, number: u64, item: &Item) -> Result<Seen, AnswerErr>
        ensures { MatchResult result (λ seen. FrontAgrees self.now.1.front item.now × (seen ≡ seen_at self.now.1 item.now))
            (RefusesLine number (FrontBreaks self.now.1.front item.now)) }
    {
        match item {
            Item::Drawn => {
                let graph = self.front.graph(alloc)?;
                self.front.seen(alloc, &graph, number)
            }
            _ => Ok(self.seen),
        }
    }
}
