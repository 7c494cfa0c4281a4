// What is said of an answer: an end, and the bytes that belong to it.
ghost use Rattle.std.specs.Prelude.{◌≡◌, IfOk, length};
ghost use Rattle.xn_gml.specs.ReadView.{found_in};
ghost use Rattle.xn_app.specs.Outcome.{Checked, Drawn, Examined};

use crate::output::{accepted_line, seen_line};
use crate::status::Status;
use std::alloc::{AllocError, Global};
use xn_check::laws::drawn_texts;
use xn_check::{check_text, draw_text, examine_text};
use xn_gml::Read;
use xn_proof::{AnswerErr, write_flaw};
use xn_show::show;

/// Tests the drawing of an answer.
pub fn examined(alloc: Global, text: &[u8]) -> Result<(Status, Vec<u8>), AllocError>
    ensures { IfOk result (λ x. Examined text.now (x.0, x.1.items)) }
{
    match examine_text(alloc, text) {
        Ok(seen) => Ok((Status::Done, seen_line(alloc, &seen)?)),
        Err(AnswerErr::Refused(flaw)) => Ok((Status::Refused(flaw), write_flaw(alloc, &flaw)?)),
        Err(AnswerErr::Memory) => Err(AllocError),
    }
}

/// Tests everything that an answer says of the graph that was read.
pub fn checked(alloc: Global, read: &Read, text: &[u8]) -> Result<(Status, Vec<u8>), AllocError>
    ensures { IfOk result (λ x. Checked text.now (found_in read.now) (x.0, x.1.items)) }
{
    match check_text(alloc, &read.graph, read.loops, text) {
        Ok(accepted) => Ok((Status::Done, accepted_line(alloc, accepted)?)),
        Err(AnswerErr::Refused(flaw)) => Ok((Status::Refused(flaw), write_flaw(alloc, &flaw)?)),
        Err(AnswerErr::Memory) => Err(AllocError),
    }
}

/// Shows the drawing of an answer for the graph that was read.
pub fn drawn(alloc: Global, read: &Read, text: &[u8]) -> Result<(Status, Vec<u8>), AllocError>
    requires { length read.now.ids.entries ≡ read.now.graph.nodes }
    ensures { IfOk result (λ x. Drawn text.now (found_in read.now) (x.0, x.1.items)) }
{
    drawn_texts();
    match draw_text(alloc, &read.graph, read.loops, text) {
        Ok(drawing) => Ok((
            Status::Done,
            show(alloc, &read.graph, read.ids.keys().as_slice(), &drawing)?,
        )),
        Err(AnswerErr::Refused(flaw)) => Ok((Status::Refused(flaw), write_flaw(alloc, &flaw)?)),
        Err(AnswerErr::Memory) => Err(AllocError),
    }
}
