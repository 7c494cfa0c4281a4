// Laws of lines, words and numbers, for whoever reads or writes them.
ghost use Rattle.xn_text.specs.Laws.{EndedLineStands, LastLineStands, EndedLineIsTaken, WordsAreTheLine, JoinedWordsAreFound, SpellingIsRead, ReadWordIsSpelled, OneSpelling, OneSignedSpelling, SpellingIsOneWord};

/// The lines of a text are its bytes, and no other lines are.
pub fn line_laws()
    ensures ended { EndedLineStands }
    ensures last { LastLineStands }
    ensures taken { EndedLineIsTaken }
{}

/// The words of a line are its bytes, and no other words are.
pub fn word_laws()
    ensures joined { WordsAreTheLine }
    ensures found { JoinedWordsAreFound }
{}

/// A number has one spelling, which is read as that number.
pub fn number_laws()
    ensures read { SpellingIsRead }
    ensures spelled { ReadWordIsSpelled }
    ensures one { OneSpelling }
    ensures one_signed { OneSignedSpelling }
    ensures word { SpellingIsOneWord }
{}
