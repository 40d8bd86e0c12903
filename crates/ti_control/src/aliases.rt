//! The aliases of an entry: the names between `|`, of which the last is the description if there are more than one.

ghost use Rattle.std.specs.Prelude.{◌≡◌};
ghost use Rattle.ti_control.specs.Entries.{EndsAliases, starts_bar, starts_empty, starts_empty_after, starts_unfit};
ghost use Rattle.ti_control.specs.Places.{IsFirstPlace};

/// Whether a `|` stands at the front.
fn starts_bar(names: &[u8]) -> bool
    ensures { result ≡ starts_bar names.now }
{
    names.starts_with(b"|")
}

/// How many bytes of names stand before the description: those before the last `|`, or all.
pub fn aliases_len(names: &[u8]) -> usize
    ensures end { EndsAliases names.now result }
{
    let mut end = names.len();
    'names: while end > 0 {
        end -= 1;
        if starts_bar(&names[end..]) {
            return end;
        }
    }
    names.len()
}

/// Whether a blank or a `/` stands at the front.
fn starts_unfit(aliases: &[u8]) -> bool
    ensures { result ≡ starts_unfit aliases.now }
{
    match aliases {
        [byte, ..] => *byte == b' ' || *byte == b'/',
        [] => false,
    }
}

/// The place of the first blank or `/` in aliases, whose files could not be named by them.
pub fn first_unfit(aliases: &[u8]) -> Option<usize>
    ensures first { IsFirstPlace starts_unfit aliases.now result }
{
    'aliases: for place in 0..aliases.len() {
        if starts_unfit(&aliases[place..]) {
            return Some(place);
        }
    }
    None
}

/// Whether the first alias is empty.
pub fn starts_empty(aliases: &[u8]) -> bool
    ensures exact { result ≡ starts_empty aliases.now }
{
    match aliases {
        [byte, ..] => *byte == b'|',
        [] => true,
    }
}

/// Whether a `|` with an empty alias after it stands at the front.
fn starts_empty_after(aliases: &[u8]) -> bool
    ensures { result ≡ starts_empty_after aliases.now }
{
    match aliases {
        [byte, rest @ ..] => *byte == b'|' && starts_empty(rest),
        [] => false,
    }
}

/// The place of the first `|` with an empty alias after it.
pub fn first_empty_after(aliases: &[u8]) -> Option<usize>
    ensures first { IsFirstPlace starts_empty_after aliases.now result }
{
    'aliases: for place in 0..aliases.len() {
        if starts_empty_after(&aliases[place..]) {
            return Some(place);
        }
    }
    None
}
