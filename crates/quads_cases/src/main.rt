// The quad program on texts at the edges of its form, one after the other.
#![tactic(auto)]

use std::io;
use std::io::{Stdout, Write};

// Answers a text, under a heading.
fn show(out: &mut Stdout, heading: &[u8], s: &[u8]) -> io::Result<()> {
    let mut answer = [0u8; 42100];
    let m = quad_program::answer(s, &mut answer);
    out.write_all(heading)?;
    out.write_all(&answer[..m])
}

// A text that is in form but for its length, which is one byte too many: 992 digits make its k.
fn show_long(out: &mut Stdout) -> io::Result<()> {
    let mut long = [57u8; 1025];
    put::put_bytes(&mut long, 0, b"k=");
    put::put_bytes(&mut long, 994, b"\nmin_spine_sq=0000000000000000\n");
    show(out, b"1025 bytes\n", &long)
}

// The same with one digit less is in form.
fn show_longest(out: &mut Stdout) -> io::Result<()> {
    let mut long = [57u8; 1024];
    put::put_bytes(&mut long, 0, b"k=");
    put::put_bytes(&mut long, 993, b"\nmin_spine_sq=0000000000000000\n");
    show(out, b"1024 bytes\n", &long)
}

// As many stars as there may be, and one more.
fn show_many(out: &mut Stdout) -> io::Result<()> {
    let many =
        *b"k=3\nmin_spine_sq=0000000000000000\nstar=0000000000000000,0000000000000000\nstar=0000000000000000,0000000000000000\nstar=0000000000000000,0000000000000000\nstar=0000000000000000,0000000000000000\nstar=0000000000000000,0000000000000000\nstar=0000000000000000,0000000000000000\nstar=0000000000000000,0000000000000000\nstar=0000000000000000,0000000000000000\nstar=0000000000000000,0000000000000000\nstar=0000000000000000,0000000000000000\nstar=0000000000000000,0000000000000000\nstar=0000000000000000,0000000000000000\nstar=0000000000000000,0000000000000000\nstar=0000000000000000,0000000000000000\nstar=0000000000000000,0000000000000000\n";
    show(out, b"fourteen stars at one place\n", &many[..580])?;
    show(out, b"a fifteenth star\n", &many)
}

// As many stars as there may be, all apart, whose quads are most of the sets of four that there are.
fn show_most(out: &mut Stdout) -> io::Result<()> {
    show(
        out,
        b"fourteen stars apart\n",
        b"k=10\nmin_spine_sq=0000000000000000\nstar=0000000000000000,0000000000000000\nstar=4042800000000000,402a000000000000\nstar=4052800000000000,404a000000000000\nstar=4024000000000000,4034000000000000\nstar=4047800000000000,402c000000000000\nstar=4055000000000000,4041000000000000\nstar=4034000000000000,4054000000000000\nstar=404c800000000000,404b800000000000\nstar=4057800000000000,404c000000000000\nstar=403e000000000000,4054c00000000000\nstar=4050c00000000000,4043800000000000\nstar=4008000000000000,4035000000000000\nstar=4044000000000000,403d000000000000\nstar=4053400000000000,404f800000000000\n",
    )
}

fn main(rt: HostRuntime) -> io::Result<()> {
    let mut stdout = rt.stdout();
    let out = &mut stdout;
    show(out, b"k is 11\n", b"k=11\nmin_spine_sq=0000000000000000\n")?;
    show(
        out,
        b"three stars\n",
        b"k=3\nmin_spine_sq=0000000000000000\nstar=0000000000000000,0000000000000000\nstar=3ff0000000000000,0000000000000000\nstar=0000000000000000,3ff0000000000000\n",
    )?;
    show(out, b"no star\n", b"k=3\nmin_spine_sq=0000000000000000\n")?;
    show(
        out,
        b"no newline at the end\n",
        b"k=3\nmin_spine_sq=0000000000000000\nstar=0000000000000000,0000000000000000",
    )?;
    show(
        out,
        b"a capital digit\n",
        b"k=3\nmin_spine_sq=0000000000000000\nstar=3FF0000000000000,0000000000000000\n",
    )?;
    show(
        out,
        b"a leading zero\n",
        b"k=03\nmin_spine_sq=0000000000000000\n",
    )?;
    show(
        out,
        b"a least spine that is no number\n",
        b"k=3\nmin_spine_sq=7ff8000000000000\n",
    )?;
    show(
        out,
        b"a position that is no number\n",
        b"k=3\nmin_spine_sq=0000000000000000\nstar=7ff8000000000000,0000000000000000\n",
    )?;
    show(
        out,
        b"k is 11 and a position is no number\n",
        b"k=11\nmin_spine_sq=0000000000000000\nstar=0000000000000000,7ff8000000000000\n",
    )?;
    show(
        out,
        b"k is 11 and a byte after the last line\n",
        b"k=11\nmin_spine_sq=0000000000000000\n ",
    )?;
    show(out, b"an empty text\n", b"")?;
    show_many(out)?;
    show_most(out)?;
    show_longest(out)?;
    show_long(out)
}
