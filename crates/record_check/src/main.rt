// The program `record_check`: the record on standard input is read, and what it shows is told on standard output.
#![tactic(auto)]

use std::io;
use std::io::Write;

fn main(rt: HostRuntime) -> io::Result<()> {
    // One byte more than the 2,048 that are taken: no record is so long, so that a longer text is refused where its first bytes are.
    let mut text = [0u8; 2049];
    let n = streams::read_full(&mut rt.stdin(), &mut text)?;
    let mut out = [0u8; 1074];
    let m = record_program::answer(&text[..n], &mut out);
    rt.stdout().write_all(&out[..m])
}
