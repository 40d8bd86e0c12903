//! What people call capabilities, in place of their names.

/// Words for capabilities, each with a name that terminfo(5) or user_caps(5) has for it, the likeliest first.
pub const KNOWN_AS: [(&str, &str); 44] = [
    ("24bit", "RGB"),
    ("24bit", "Tc"),
    ("24bit", "setrgbf"),
    ("altscreen", "smcup"),
    ("background", "setab"),
    ("backspace", "kbs"),
    ("beep", "bel"),
    ("bg", "setab"),
    ("clipboard", "Ms"),
    ("delete", "kdch1"),
    ("down", "kcud1"),
    ("down", "cud1"),
    ("enter", "kent"),
    ("fg", "setaf"),
    ("foreground", "setaf"),
    ("goto", "cup"),
    ("height", "lines"),
    ("hide", "civis"),
    ("insert", "kich1"),
    ("inverse", "rev"),
    ("italic", "sitm"),
    ("italics", "sitm"),
    ("left", "kcub1"),
    ("left", "cub1"),
    ("move", "cup"),
    ("normal", "sgr0"),
    ("pagedown", "knp"),
    ("pageup", "kpp"),
    ("reset", "sgr0"),
    ("reset", "rs1"),
    ("reset", "rs2"),
    ("right", "kcuf1"),
    ("right", "cuf1"),
    ("rows", "lines"),
    ("strikethrough", "smxx"),
    ("title", "tsl"),
    ("truecolor", "RGB"),
    ("truecolor", "Tc"),
    ("truecolor", "setrgbf"),
    ("undercurl", "Smulx"),
    ("underline", "smul"),
    ("up", "kcuu1"),
    ("up", "cuu1"),
    ("width", "cols"),
];

/// The number of a function key, as `5` of `F5`.
fn key_number(word: &str) -> Option<&str> {
    let key = word.strip_prefix("KEY_").unwrap_or(word);
    match key.strip_prefix("F").or(key.strip_prefix("f")) {
        Some(number) if number.bytes().all(|byte| byte.is_ascii_digit()) => Some(number),
        _ => None,
    }
}

/// Whether a word is a name but for capitals, or calls the function key of that name.
pub fn is_called(word: &str, name: &str) -> bool {
    let is_key = match (key_number(word), name.strip_prefix("kf")) {
        (Some(number), Some(its_number)) => number == its_number,
        _ => false,
    };
    is_key || word.eq_ignore_ascii_case(name)
}
