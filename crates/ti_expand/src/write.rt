//! Bytes that are put into a slice, from a place on.

ghost use Rattle.std.specs.Prelude.{◌≡◌, ◌+◌, ◌≤◌, ◌∷◌, ◌++◌, [], length, take, drop, replicate};

/// Puts the bytes at a place, and returns the place after them.
#[inline(always)]
pub fn put(out: &mut [u8], at: usize, bytes: &[u8]) -> usize
    requires { at + length bytes.now ≤ length out.old }
    ensures end { result ≡ at + length bytes.now }
    ensures written { take result out.new ≡ take at out.old ++ bytes.now }
    ensures rest { drop result out.new ≡ drop result out.old }
{
    let end = at + bytes.len();
    out[at..end].copy_from_slice(bytes);
    end
}

/// Puts a byte some times, and returns the place after it.
pub fn put_repeated(out: &mut [u8], at: usize, byte: u8, count: usize) -> usize
    requires { at + count ≤ length out.old }
    ensures end { result ≡ at + count }
    ensures written { take result out.new ≡ take at out.old ++ replicate count byte }
    ensures rest { drop result out.new ≡ drop result out.old }
{
    let end = at + count;
    out[at..end].fill(byte);
    end
}

/// Puts a byte at a place, and returns the place after it.
#[inline(always)]
pub fn put_byte(out: &mut [u8], at: usize, byte: u8) -> usize
    requires { at + 1 ≤ length out.old }
    ensures end { result ≡ at + 1 }
    ensures written { take result out.new ≡ take at out.old ++ byte ∷ [] }
    ensures rest { drop result out.new ≡ drop result out.old }
{
    out[at] = byte;
    at + 1
}
