//! Texts that undo each other, and lists of pairs.

ghost use Rattle.std.specs.Prelude.{◌≡◌, ◌%◌, ◌↔◌, map, length, IsTrue};
ghost use Rattle.ti_lint.specs.Pairs.{all_pairs, all_toggles, names_of};

/// Save and restore the cursor; margins on and off; the other character set in and out; the printer on and off; the keys to send
/// and back; the cursor very visible and normal.
static PAIRS: [(&str, &str); 6] = [
    ("sc", "rc"),
    ("smam", "rmam"),
    ("smacs", "rmacs"),
    ("mc5", "mc4"),
    ("smkx", "rmkx"),
    ("cvvis", "cnorm"),
];

/// The names of texts of which one undoes what the other does, so that no two of them are the same.
#[tactic(auto, unfolding(crate::specs::Pairs::all_pairs))]
pub fn undoing_pairs() -> &'static [(&'static str, &'static str)]
    ensures names { map names_of result.now ≡ all_pairs }
{
    &PAIRS
}

/// The start and the end of modes: standout, underline, the screen of the cursor, insert, delete, the meta key, flow control,
/// labels, italics, wide, shadowed, lowered and raised letters, leftward and upward, micro motion, characters of the PC, scan codes.
static TOGGLES: [(&str, &str); 18] = [
    ("smso", "rmso"),
    ("smul", "rmul"),
    ("smcup", "rmcup"),
    ("smir", "rmir"),
    ("smdc", "rmdc"),
    ("smm", "rmm"),
    ("smxon", "rmxon"),
    ("smln", "rmln"),
    ("sitm", "ritm"),
    ("swidm", "rwidm"),
    ("sshm", "rshm"),
    ("ssubm", "rsubm"),
    ("ssupm", "rsupm"),
    ("slm", "rlm"),
    ("sum", "rum"),
    ("smicm", "rmicm"),
    ("smpch", "rmpch"),
    ("smsc", "rmsc"),
];

/// The names of texts of which one starts and one ends a mode. On a terminal that toggles the mode they may be the same.
#[tactic(auto, unfolding(crate::specs::Pairs::all_toggles))]
pub fn toggling_pairs() -> &'static [(&'static str, &'static str)]
    ensures names { map names_of result.now ≡ all_toggles }
{
    &TOGGLES
}

/// Whether the last of a list's pairs of bytes is cut: `acsc` has a character and what draws it, again and again.
pub fn is_half_paired(text: &[u8]) -> bool
    ensures exact { IsTrue result ↔ (length text.now % 2 ≡ 1) }
{
    text.len() % 2 == 1
}
