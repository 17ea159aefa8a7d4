// Little-endian numbers at a place of a slice, and parts of fixed length copied and compared.
#![tactic(auto)]

ghost use Rattle.std.specs.Prelude.{◌≡◌, ◌++◌, ◌+◌, ◌≤◌, ℕ, length, take, drop};
ghost use Rattle.paper.specs.Number.{field, spelled};
ghost use Rattle.paper.specs.Image.{same};
ghost use Rattle.number.specs.Put.{put};

// "Numbers are little-endian": one that lies in `size` bytes.
pub trait Field: Sized {
    ghost size: { ℕ };

    // the number itself
    ghost value: { Self → ℕ };

    // The number in the bytes from `at` on.
    fn read(s: &[u8], at: usize) -> Self
        requires { at + size ≤ length s.now }
        ensures { value result ≡ field s.now at size };

    // Puts it into the bytes from `at` on.
    fn write(self, s: &mut [u8], at: usize)
        requires { at + size ≤ length s.old }
        ensures { s.new ≡ put at (spelled size (value self)) s.old };
}

impl Field for u32 {
    ghost size = { 4 };

    ghost value = { λ x. x };

    fn read(s: &[u8], at: usize) -> u32 {
        u32::from_le_bytes(s[at..at + 4].try_into().unwrap())
    }

    fn write(self, s: &mut [u8], at: usize) {
        s[at..at + 4].copy_from_slice(&self.to_le_bytes());
    }
}

impl Field for u64 {
    ghost size = { 8 };

    ghost value = { λ x. x };

    fn read(s: &[u8], at: usize) -> u64 {
        u64::from_le_bytes(s[at..at + 8].try_into().unwrap())
    }

    fn write(self, s: &mut [u8], at: usize) {
        s[at..at + 8].copy_from_slice(&self.to_le_bytes());
    }
}

// Copies the first N bytes of src over those of dst, byte by byte: that becomes moves of 16 bytes in place, where std's `copy_from_slice` is a call for each block.
pub fn copy<const N: usize>(dst: &mut [u8], src: &[u8])
    requires { (N ≤ length dst.old) × (N ≤ length src.now) }
    ensures { dst.new ≡ take N src.now ++ drop N dst.old }
{
    for i in 0..N {
        dst[i] = src[i];
    }
}

// Whether two blocks, the first 512 bytes of a and of b, are the same.
pub fn same_block(a: &[u8], b: &[u8]) -> bool
    requires { (512 ≤ length a.now) × (512 ≤ length b.now) }
    ensures { result ≡ same (take 512 a.now) (take 512 b.now) }
{
    a[..512] == b[..512]
}
