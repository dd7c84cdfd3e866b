// Laws of texts and request lines (this project's own).
ghost use Rattle.request_text.specs.Laws.{WordsMakeTheText, FoundMakeTheText, JoinedIsItsWords};

/// The text that is written by the words of an answer's tiles is the text of the answer.
pub fn words_make_the_text()
    ensures { WordsMakeTheText }
{}

/// The text that is written by the words of the faulty roots that a check found is the text of the check.
pub fn found_make_the_text()
    ensures { FoundMakeTheText }
{}

/// Three words that are read to a line are read to the same line when they are joined by spaces.
pub fn a_joined_line_is_its_words()
    ensures { JoinedIsItsWords }
{}
