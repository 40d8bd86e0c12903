//! The files that an entry names, which programs send to the terminal, and its size.

ghost use Rattle.std.specs.Prelude.{◌≡◌, ◌⊎◌, ◌↔◌, IsSome, IsTrue, false, nat_eq};
ghost use Rattle.std.specs.List.{starts_with};
ghost use Rattle.ti_control.specs.Entries.{is_vast, starts_parent, tabset};
ghost use Rattle.ti_control.specs.Places.{IsFirstPlace};

/// The place of the first `..` in the name of a file.
fn first_parent(path: &[u8]) -> Option<usize>
    ensures first { IsFirstPlace starts_parent path.now result }
{
    'path: for place in 0..path.len() {
        if path[place..].starts_with(b"..") {
            return Some(place);
        }
    }
    None
}

/// Whether a file lies where terminfo(5) has those that set tabs: below `/usr/share/tabset`, without a `..`.
pub fn is_tabset(path: &[u8]) -> bool
    ensures below { IsTrue result → IsTrue (starts_with nat_eq path.now tabset) }
    ensures within { IsTrue result → IsFirstPlace starts_parent path.now None }
    ensures otherwise { IsTrue (starts_with nat_eq path.now tabset) → IsFirstPlace starts_parent path.now None → IsTrue result }
{
    path.starts_with(b"/usr/share/tabset/") && first_parent(path).is_none()
}

/// Whether a screen has more than a million characters, so that programs run out of memory.
pub fn is_vast(lines: u32, columns: u32) -> bool
    ensures exact { result ≡ is_vast lines columns }
{
    u64::from(lines) * u64::from(columns) > 1_000_000
}
