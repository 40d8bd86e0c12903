//! The laws of the notation and of labels, each stated as the contract of an empty function.

ghost use Rattle.ti_escape.specs.Laws.{HasNoBlankEnd, HasNoSpace, IsLabelReadBack, IsPrintable, IsReadBack, LabelLooksLikeNoOther, LooksLikeNoOther, LooksLikeNoWord};

/// A notation is read as its text; so two texts never look the same. It looks like no word of a listing, each of its
/// characters can be printed, and neither its first nor its last is a space.
pub fn notation_is_read_back()
    ensures back { IsReadBack }
    ensures apart { LooksLikeNoOther }
    ensures no_word { LooksLikeNoWord }
    ensures printable { IsPrintable }
    ensures no_blank_end { HasNoBlankEnd }
{}

/// A label is read as its name, so two names never look the same. Each of its characters can be printed and is no space.
pub fn label_is_read_back()
    ensures back { IsLabelReadBack }
    ensures apart { LabelLooksLikeNoOther }
    ensures no_space { HasNoSpace }
{}
