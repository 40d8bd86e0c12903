//! How far the paths have come at a place of a capability.

/// The greatest height of the stack and the most bytes written, each over all paths that run here. A token writes fewer
/// than 2^16 bytes, so the bytes of a whole capability fit 32 bits.
#[derive(Clone, Copy)]
pub struct Extent {
    /// The greatest height.
    pub height: u32,
    /// The most bytes.
    pub size: u32,
}

impl Extent {
    ghost use Rattle.std.specs.Prelude.{◌≡◌};
    ghost use Rattle.ti_cap.specs.inner.Scan.{greater_extent};

    /// No height and no bytes, which is no more than any other.
    pub const NONE: Extent = Extent { height: 0, size: 0 };

    /// The greater height and the greater size of two.
    #[inline(always)]
    pub fn max(self, other: Extent) -> Extent
        ensures { result ≡ greater_extent other self }
    {
        Extent {
            height: other.height.max(self.height),
            size: other.size.max(self.size),
        }
    }
}
