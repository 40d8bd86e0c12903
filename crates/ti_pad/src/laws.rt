//! The laws of padding marks, each stated as the contract of an empty function.

ghost use Rattle.ti_pad.specs.Laws.{CountsEnough, CountsLeast, FindsMarks, MarksLieApart, PassesOver, PiecesJoin};

/// A mark is found exactly where one starts by the grammar, and lies apart from every other.
pub fn marks_are_found()
    ensures found { FindsMarks }
    ensures apart { MarksLieApart }
{}

/// The pieces of a text join to the text.
pub fn pieces_join()
    ensures { PiecesJoin }
{}

/// The count of pad bytes is the smallest that takes the time of the mark, or none if the mark is passed over.
pub fn count_is_least()
    ensures passed_over { PassesOver }
    ensures enough { CountsEnough }
    ensures least { CountsLeast }
{}
