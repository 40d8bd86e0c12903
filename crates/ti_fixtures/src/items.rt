//! Items of an entry as text, as `infocmp` lists them.

/// The value of a capability in an item.
#[derive(Clone, Copy)]
pub enum Said<'a> {
    Yes,
    Number(i32),
    Text(&'a [u8]),
    Cancelled,
}

/// The name of an item, and what it says: `am`, `cols#80`, `bel=^G` or `bel@`.
pub fn item_of(item: &str) -> (&str, Said<'_>) {
    if let Some((name, text)) = item.split_once('=') {
        return (name, Said::Text(text.as_bytes()));
    }
    if let Some((name, number)) = item.split_once('#') {
        return (name, Said::Number(number.parse::<i32>().unwrap_or(-1)));
    }
    match item.strip_suffix('@') {
        Some(name) => (name, Said::Cancelled),
        None => (item, Said::Yes),
    }
}
