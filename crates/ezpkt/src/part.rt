// Parts of a slice, as far as they are there.
ghost use Rattle.std.specs.Prelude.{◌≡◌, take, drop};

// The first n bytes of s.
pub fn front(s: &[u8], n: usize) -> &[u8]
    ensures { result.now ≡ take n s.now }
{
    s.get(..n).unwrap_or(s)
}

// The bytes of s from the n-th on.
pub fn back(s: &[u8], n: usize) -> &[u8]
    ensures { result.now ≡ drop n s.now }
{
    s.get(n..).unwrap_or(&[])
}
