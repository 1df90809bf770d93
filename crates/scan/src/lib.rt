// Text read from a slice: fixed bytes and lines, at a place.
#![tactic(auto)]

ghost use Rattle.std.specs.Prelude.{◌≡◌, drop};
ghost use Rattle.scan.specs.Read.{read_bytes, line_end};

// The place of the first byte that is not what was looked for.
#[derive(Clone, Copy)]
pub struct Wrong {
    pub at: usize,
}

// Reads these very bytes, and returns the place after them.
pub fn read_bytes(s: &[u8], at: usize, t: &[u8]) -> Result<usize, Wrong>
    ensures { result ≡ read_bytes t.now (drop at s.now) at }
{
    let mut p = at;
    for b in t {
        if s.len() <= p {
            return Err(Wrong { at: p });
        }
        if s[p] != *b {
            return Err(Wrong { at: p });
        }
        p += 1;
    }
    Ok(p)
}

// The place of the first newline at or after a place, or of the end of the text.
pub fn line_end(s: &[u8], at: usize) -> usize
    ensures { result ≡ line_end (drop at s.now) at }
{
    for p in at..s.len() {
        if s[p] == 10 {
            return p;
        }
    }
    at.max(s.len())
}
