// The program `record_check` on texts at the edges of a record, one after the other.
#![tactic(auto)]

ghost use Rattle.std.specs.Prelude.{◌≤◌, length};

use std::io;
use std::io::{Stdout, Write};

// The first lines of the scope's record.
const FORM: [u8; 16] = *b"format=2\nrows=6\n";

// Those of its reference pixel and its CD numbers.
const WCS: [u8; 140] = *b"crpix1=0000000000000000\ncrpix2=0000000000000000\n\
    cd1_1=3ff0000000000000\ncd1_2=0000000000000000\ncd2_1=0000000000000000\ncd2_2=3ff0000000000000\n";

// Those of its order and its one coefficient, which was solved as 0.5.
const TERMS: [u8; 31] = *b"order=2\na_2_0=bfe0000000000000\n";

// Those of its errors.
const ERRORS: [u8; 71] =
    *b"linear_rms=3fe0000000000000\nrms=0000000000000000\nwrms=0000000000000000\n";

// Answers a text, under a heading.
fn show(out: &mut Stdout, heading: &[u8], s: &[u8]) -> io::Result<()> {
    let mut answer = [0u8; 1074];
    let m = record_program::answer(s, &mut answer);
    out.write_all(heading)?;
    out.write_all(&answer[..m])
}

// Puts a record's parts, of at most 100 bytes each, one after the other.
fn put_parts(text: &mut [u8], form: &[u8], terms: &[u8], errors: &[u8]) -> usize
    requires { (440 ≤ length text.old) × (length form.now ≤ 100) × (length terms.now ≤ 100) × (length errors.now ≤ 100) }
    ensures { result ≤ 440 }
{
    let wcs = WCS;
    let p = put::put_bytes(text, 0, form);
    let q = put::put_bytes(text, p, &wcs);
    let r = put::put_bytes(text, q, terms);
    put::put_bytes(text, r, errors)
}

// Answers a record of such parts.
fn show_parts(
    out: &mut Stdout,
    heading: &[u8],
    form: &[u8],
    terms: &[u8],
    errors: &[u8],
) -> io::Result<()>
    requires { (length form.now ≤ 100) × (length terms.now ≤ 100) × (length errors.now ≤ 100) }
{
    let mut text = [0u8; 440];
    let n = put_parts(&mut text, form, terms, errors);
    show(out, heading, &text[..n])
}

// Answers the scope's record with other first lines.
fn show_form(out: &mut Stdout, heading: &[u8], form: &[u8]) -> io::Result<()>
    requires { length form.now ≤ 100 }
{
    show_parts(out, heading, form, &TERMS, &ERRORS)
}

// Answers it with other coefficients.
fn show_terms(out: &mut Stdout, heading: &[u8], terms: &[u8]) -> io::Result<()>
    requires { length terms.now ≤ 100 }
{
    show_parts(out, heading, &FORM, terms, &ERRORS)
}

// Answers it with another end.
fn show_end(out: &mut Stdout, heading: &[u8], errors: &[u8]) -> io::Result<()>
    requires { length errors.now ≤ 100 }
{
    show_parts(out, heading, &FORM, &TERMS, errors)
}

// Answers it with line feeds behind it: as many bytes as are taken, and one more.
fn show_long(out: &mut Stdout) -> io::Result<()> {
    let mut text = [10u8; 2049];
    put_parts(&mut text, &FORM, &TERMS, &ERRORS);
    show(out, b"2048 bytes\n", &text[..2048])?;
    show(out, b"2049 bytes\n", &text)
}

// The record as it was in format 1, and with other numbers in the format line.
fn show_formats(out: &mut Stdout) -> io::Result<()> {
    show_parts(
        out,
        b"the scope's record in format 1\n",
        b"format=1\nrows=6\n",
        b"order=2\na_2_0=3fe0000000000000\n",
        &ERRORS,
    )?;
    show_form(
        out,
        b"format 1, the sign of format 2\n",
        b"format=1\nrows=6\n",
    )?;
    show_form(out, b"format 0\n", b"format=0\nrows=6\n")?;
    show_form(out, b"format 3\n", b"format=3\nrows=6\n")?;
    show_form(out, b"format 02\n", b"format=02\nrows=6\n")
}

fn main(rt: HostRuntime) -> io::Result<()> {
    let mut stdout = rt.stdout();
    let out = &mut stdout;
    show(out, b"an empty text\n", b"")?;
    show_parts(out, b"the scope's record\n", &FORM, &TERMS, &ERRORS)?;
    show_formats(out)?;
    show_end(
        out,
        b"no newline at the end\n",
        b"linear_rms=3fe0000000000000\nrms=0000000000000000\nwrms=0000000000000000",
    )?;
    show_end(
        out,
        b"a byte after the end\n",
        b"linear_rms=3fe0000000000000\nrms=0000000000000000\nwrms=0000000000000000\n ",
    )?;
    show_terms(
        out,
        b"capital digits\n",
        b"order=2\na_2_0=BFE0000000000000\n",
    )?;
    show_terms(
        out,
        b"a coefficient that is dropped\n",
        b"order=2\na_2_0=bbc79ca10c924223\n",
    )?;
    show_terms(
        out,
        b"a second a_2_0\n",
        b"order=2\na_2_0=bfe0000000000000\na_2_0=bfe0000000000000\n",
    )?;
    show_terms(
        out,
        b"b before a\n",
        b"order=2\nb_2_0=bfe0000000000000\na_2_0=bfe0000000000000\n",
    )?;
    show_form(out, b"a leading zero\n", b"format=2\nrows=06\n")?;
    show_terms(out, b"order 6\n", b"order=6\na_2_0=bfe0000000000000\n")?;
    show_form(out, b"carriage returns\n", b"format=2\r\nrows=6\r\n")?;
    show_long(out)
}
