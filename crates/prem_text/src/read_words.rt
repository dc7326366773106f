//! Each literal of a program that is read from a text is a word.
ghost use Rattle.prem_text.specs.ReadWords.Law.{ReadsHaveWords};

/// Each literal of a program that is read from a text is below 2^32.
pub fn reads_have_words()
    ensures { ReadsHaveWords }
{}
