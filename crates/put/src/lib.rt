// Bytes put into a lent buffer at a place.
#![tactic(auto)]

ghost use Rattle.std.specs.Prelude.{[], ◌∷◌};
ghost use Rattle.put.specs.Put.{Put, Room};

// Puts one byte, and returns the place after it, as each `put_` function does.
pub fn put_byte(buf: &mut [u8], at: usize, b: u8) -> usize
    requires { Room buf.old at (b ∷ []) }
    ensures { Put buf.old at (b ∷ []) result buf.new }
{
    buf[at] = b;
    at + 1
}

// Puts all bytes of a slice. No `copy_from_slice`: it calls memmove, which an archive for C would need from outside.
pub fn put_bytes(buf: &mut [u8], at: usize, t: &[u8]) -> usize
    requires { Room buf.old at t.now }
    ensures { Put buf.old at t.now result buf.new }
{
    for (i, b) in t.iter().enumerate() {
        buf[at + i] = *b;
    }
    at + t.len()
}
