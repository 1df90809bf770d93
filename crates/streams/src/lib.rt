// A stream that is read into a list of fixed length.
#![tactic(auto)]

ghost use Rattle.std.specs.Prelude.{◌≡◌, ◌<◌, length, take, IfOk};
ghost use Rattle.std.specs.Io.{ReadsAtMost};
ghost use Rattle.std.specs.Io.KnownBytes.{Consumes, IsAtEnd};

use std::io;
use std::io::Read;

// Reads until the list is full or the stream ends, and says how many bytes it read: they are at the front of
// the list. After an error the list still has its length, and a part of the stream may be read.
pub fn read_full<R: Read>(input: &mut R, out: &mut [u8]) -> io::Result<usize>
    ensures bound { ReadsAtMost result out.new }
    ensures bytes { IfOk result (λ n. Consumes (R.remaining input.old) (R.remaining input.new) (take n out.new)) }
    ensures end { IfOk result (λ n. n < length out.new → IsAtEnd (R.remaining input.new)) }
    ensures room { length out.new ≡ length out.old }
{
    let mut n = 0usize;
    // A read may give fewer bytes than were asked for.
    while n < out.len() {
        let more = input.read(&mut out[n..])?;
        if more == 0 {
            break;
        }
        n += more;
    }
    Ok(n)
}
