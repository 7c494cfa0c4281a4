// Laws of the text of answers.
ghost use Rattle.xn_proof.specs.Forms.{LinesSayItsItems, LinesSayTheAnswer};
ghost use Rattle.xn_proof.specs.Laws.{ReadIsSpelled, SpelledIsRead, NoneBeginsAnother, OneAnswer, FrontIsSpelled};

/// A text is read as an answer exactly where it is that answer's one spelling, and no spelling begins another.
pub fn answer_text_laws()
    ensures spelled { ReadIsSpelled }
    ensures read { SpelledIsRead }
    ensures apart { NoneBeginsAnother }
    ensures one { OneAnswer }
    ensures front { FrontIsSpelled }
{}

/// The lines of a text, taken one by one, say what the text says as an answer, and come to the end with it; or the first of
/// them that fails has the flaw of the text. For a flaw there must be fewer lines than numbers of 64 bits, since the number of
/// a line stays at the last of them; what the lines say is so for any text.
pub fn line_by_line_law()
    ensures answer { LinesSayTheAnswer }
    ensures items { LinesSayItsItems }
{}
