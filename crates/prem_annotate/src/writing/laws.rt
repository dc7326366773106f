// What a text with notes is.
ghost use Rattle.prem_annotate.specs.Writing.Laws.{TextsAreEdits, TextsAreRead, TextsStay};

/// The text with a program's annotations is that of pieces with edits at annotations alone: the literals of marks, regions, and
/// RANGEs behind names. They have the tokens of the annotated program.
pub fn annotated_texts_are_edits()
    ensures { TextsAreEdits }
{}

/// Where that text isn't too long, it is read as the annotated program, places aside.
pub fn annotated_texts_are_read()
    ensures { TextsAreRead }
{}

/// A text stays, byte by byte, where its notes stand in it.
pub fn annotated_texts_stay()
    ensures { TextsStay }
{}
