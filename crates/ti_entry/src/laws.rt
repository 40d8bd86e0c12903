//! Laws of the definitions, each stated as the contract of an empty function.

ghost use Rattle.ti_entry.specs.Laws.{SpellsAtMostOne, FailureLasts, FailureRefuses, AnyCutting, AnyCuttingReadsAlike, EncodedSpells, EqualEntriesHaveEqualBytes, EqualBytesAreOfEqualEntries, EncodedReads};

/// Bytes spell at most one entry.
pub fn one_entry()
    ensures { SpellsAtMostOne }
{}

/// A check that has failed on some bytes has failed, with the same refusal, whatever bytes follow.
pub fn failure_lasts()
    ensures { FailureLasts }
{}

/// A check that has failed on the bytes so far is why they are refused, should nothing follow.
pub fn failure_refuses()
    ensures { FailureRefuses }
{}

/// However an input is cut into pieces, a new reader that is fed them returns at the end what [`read`](crate::read)
/// returns for their joining: its `finish` is the `final_answer` of what it then holds.
#[tactic(auto, using(crate::proofs::FeedLemmas::any_cutting, crate::proofs::FeedLemmas::any_cutting_answers_alike))]
pub fn any_cutting()
    ensures answer { AnyCuttingReadsAlike }
    // It holds what the joining makes of it.
    ensures reading { AnyCutting }
{}

/// The bytes of an entry that has no fault spell it.
#[tactic(auto, using(ti_draft::proofs::EncodedSpellsLemmas::canonical_spells))]
pub fn encoded_spells()
    ensures { EncodedSpells }
{}

/// Equal entries have the same bytes, and two entries that have no fault and the same bytes are the same.
#[tactic(auto, using(crate::proofs::SpellsAtMostOneLemmas::at_most_one, ti_draft::proofs::EncodedSpellsLemmas::canonical_spells))]
pub fn encoded_once()
    ensures alike { EqualEntriesHaveEqualBytes }
    ensures once { EqualBytesAreOfEqualEntries }
{}

/// Reading the bytes of an entry that has no fault gives it back.
#[tactic(auto, using(crate::proofs::EncodedReadsLemmas::encoded_reads))]
pub fn encoded_reads()
    ensures { EncodedReads }
{}
