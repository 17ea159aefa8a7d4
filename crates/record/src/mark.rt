// "Each record opens with a two-byte mark": 57 44 a diff head, 57 42 a block, 57 53 a state.
ghost use Rattle.std.specs.Prelude.{◌≡◌, ◌≤◌, [], ◌∷◌, length};
ghost use Rattle.paper.specs.Number.{opens};

// The first byte of each.
pub(crate) const FIRST: u8 = 0x57;

// Whether bytes open with the mark whose second byte is `second`.
pub(crate) fn opens(s: &[u8], second: u8) -> bool
    requires { 2 ≤ length s.now }
    ensures { result ≡ opens s.now (FIRST ∷ second ∷ []) }
{
    s[0] == FIRST && s[1] == second
}
