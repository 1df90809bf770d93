// The quad program: the text of standard input is answered on standard output.
#![tactic(auto)]

use std::io;
use std::io::Write;

fn main(rt: HostRuntime) -> io::Result<()> {
    // One byte more than a text in form can have, so that a longer one is seen to be longer.
    let mut text = [0u8; 1025];
    let n = streams::read_full(&mut rt.stdin(), &mut text)?;
    let mut out = [0u8; 42100];
    let m = quad_program::answer(&text[..n], &mut out);
    rt.stdout().write_all(&out[..m])
}
