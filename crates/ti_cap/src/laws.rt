//! Laws of the capability language, each stated as the contract of an empty function.

ghost use Rattle.std.specs.Prelude.{◌≡◌, ℕ, List, [], ◌++◌};
ghost use Rattle.ti_cap.specs.declared.language.CapRefused.{CapRefused};
ghost use Rattle.ti_cap.specs.declared.language.Token.{Token};
ghost use Rattle.ti_cap.specs.Refusal.{IsRefusal};
ghost use Rattle.ti_cap.specs.Tree.{Sequence};
ghost use Rattle.ti_cap.specs.Spelling.{Spells, Written, Writes};

/// No spelling of a token is a proper front of another's: if it begins a spelling, it is the whole of it.
pub fn spellings_stand_apart()
    ensures { (one other : Token) → (spelling more : List ℕ) → Spells one spelling
        → Spells other (spelling ++ more) → (more ≡ []) × (one ≡ other) }
{}

/// Bytes have at most one cutting into tokens.
pub fn one_cutting()
    ensures { (ones others : List Token) → (bytes : List ℕ) → Written ones bytes
        → Written others bytes → ones ≡ others }
{}

/// Bytes are written by at most one tree.
pub fn one_tree()
    ensures { (one other : Sequence) → (bytes : List ℕ) → Writes one bytes → Writes other bytes
        → one ≡ other }
{}

/// Bytes have at most one refusal.
pub fn one_refusal()
    ensures { (one other : CapRefused) → (bytes : List ℕ) → IsRefusal bytes one
        → IsRefusal bytes other → one ≡ other }
{}
