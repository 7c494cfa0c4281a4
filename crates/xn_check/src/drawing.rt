// The drawing of an answer, judged line by line.
ghost use Rattle.std.specs.Prelude.{◌≡◌, IfOk};
ghost use Rattle.xn_proof.specs.Forms.{start_state};
ghost use Rattle.xn_check.specs.FrontFits.{FrontStands};
ghost use Rattle.xn_check.specs.FrontSaid.{drawing_said, no_front};
ghost use Rattle.xn_check.specs.Judging.{Took, at_end};
ghost use Rattle.xn_check.specs.Verdict.{draw_rules};

use crate::front::FrontPart;
use crate::refusals::refused;
use std::alloc::Global;
use std::marker::Model;
use xn_graph::Graph;
use xn_kinds::{Drawing, FlawKind};
use xn_proof::{AnswerErr, Forms};

/// Judges the drawing of an answer line by line, and keeps it. Of the rows and the tree it asks that they keep their forms.
#[derive(Drop)]
pub struct DrawJudge {
    forms: Forms,
    front: FrontPart,
}

impl Model for DrawJudge {
    ghost use Rattle.xn_proof.specs.Forms.{Reached};
    ghost use Rattle.xn_check.specs.FrontSaid.{FrontSaid};

    ghost Value = { Reached × FrontSaid };

    ghost view = { λ j. (j.forms, j.front) };
}

impl DrawJudge {
    /// The judge before the first line. No memory is taken.
    pub fn new(alloc: Global) -> DrawJudge
        ensures { result ≡ (start_state, no_front) }
    {
        DrawJudge {
            forms: Forms::new(),
            front: FrontPart::new(alloc),
        }
    }

    /// Judges the next line for a graph and so many loops left aside. It is given without the byte 10, and whether it has that
    /// byte. After a refusal or want of memory no line may follow.
    pub fn line(
        &mut self,
        alloc: Global,
        graph: &Graph,
        loops: u64,
        bytes: &[u8],
        ended: bool,
    ) -> Result<(), AnswerErr>
        requires { FrontStands self.old.0.1 self.old.1 }
        ensures took { Took (draw_rules graph.now loops) self.old.0 self.old.1 (bytes.now, ended) self.new.0 self.new.1 result }
        ensures ready { IfOk result (λ _. FrontStands self.new.0.1 self.new.1) }
    {
        let number = self.forms.number();
        let item = self.forms.line(alloc, bytes, ended)?;
        self.front.test(alloc, graph, loops, number, &item)?;
        Ok(self.front.keep(item)?)
    }

    /// The drawing, where the answer has come to its end.
    pub fn finish(self) -> Result<Drawing, AnswerErr>
        ensures { result ≡ at_end self.0 (drawing_said self.1) }
    {
        if !self.forms.done() {
            return Err(refused(self.forms.number(), FlawKind::Syntax));
        }
        Ok(self.front.into_drawing())
    }
}
