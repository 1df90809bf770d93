// What the programs that replay stored cases share: lines that are read, fields of a line, and fields of an
// answer that are printed, all in the form of oracle/README.md.
#![tactic(auto)]

ghost use Rattle.std.specs.Prelude.{◌≡◌, ◌≤◌, ◌%◌, ℕ, List, [], ◌∷◌, length, take, drop, Ok, Option, None, IfOk, IfSome, OnOk};
ghost use Rattle.std.specs.Io.{StopsAt};
ghost use Rattle.std.specs.Io.BufRead.{take_through};
ghost use Rattle.std.specs.Io.KnownBytes.{Appends, Consumes, IsAtEnd};
ghost use Rattle.digits.specs.Digits.{decimal_of};
ghost use Rattle.scan_digits.specs.Read.{read_decimal};
ghost use Rattle.cases.specs.Lists.{float_text, comma_before, dash_for, list_field};
ghost use Rattle.cases.specs.Fields.{after_space, field_after, float_at, number_at, after_comma, after_member, member_after};
ghost use Rattle.cases.specs.Members.{float_member, word_member, id_member, byte_member, count_member, id_of};
ghost use Rattle.scan.specs.Read.{read_bytes};

use std::io;
use std::io::{BufRead, Write};

// ---- lines

// The next byte of a stream; none at its end.
fn next_byte<R: BufRead>(input: &mut R) -> io::Result<Option<u8>>
    ensures some { IfOk result (λ b. IfSome b (λ x. Consumes (R.remaining input.old) (R.remaining input.new) (x ∷ []))) }
    ensures none { result ≡ Ok None → Consumes (R.remaining input.old) (R.remaining input.new) [] }
    ensures end { result ≡ Ok None → IsAtEnd (R.remaining input.old) }
{
    let ahead = input.fill_buf()?;
    if ahead.is_empty() {
        return Ok(None);
    }
    let b = ahead[0];
    input.consume(1);
    Ok(Some(b))
}

// Reads the next line of a stream with its newline, as far as there is room, and says how long it is. After an
// error the list still has its length, and a part of the line may be read.
pub fn read_line<R: BufRead>(input: &mut R, out: &mut [u8]) -> io::Result<usize>
    ensures length { IfOk result (λ n. (n ≤ length out.new) × (n ≡ length (take n out.new))) }
    ensures bytes { IfOk result (λ n. Consumes (R.remaining input.old) (R.remaining input.new) (take n out.new)) }
    ensures line { IfOk result (λ n. IfSome (R.remaining input.old)
        (λ xs. take n out.new ≡ take_through 10 (take (length out.new) xs))) }
    ensures stops { IfOk result (λ n. StopsAt (take n out.new) 10) }
    ensures room { length out.new ≡ length out.old }
{
    for n in 0..out.len() {
        let Some(b) = next_byte(input)? else {
            return Ok(n);
        };
        out[n] = b;
        if b == 10 {
            return Ok(n + 1);
        }
    }
    Ok(out.len())
}

// ---- fields

// The place after the next space, or the end of the text.
fn next_field(s: &[u8], at: usize) -> usize
    ensures { result ≡ after_space (drop at s.now) at }
{
    for p in at..s.len() {
        if s[p] == 32 {
            return p + 1;
        }
    }
    at.max(s.len())
}

// The place of the field that is k after the one at a place.
pub fn field(s: &[u8], at: usize, k: usize) -> usize
    ensures { result ≡ field_after s.now at k }
{
    let mut p = at;
    for _ in 0..k {
        p = next_field(s, p);
    }
    p
}

// The float at a place; NaN where no 16 digits stand there.
pub fn float_at(s: &[u8], at: usize) -> f64
    ensures { result ≡ float_at s.now at }
{
    match scan_digits::read_hex(s, at) {
        Ok((bits, _)) => scan_digits::of_bits(bits),
        Err(_) => 0.0 / 0.0,
    }
}

// The number at a place; 0 where none stands there.
pub fn number_at(s: &[u8], at: usize) -> u64
    ensures { result ≡ number_at s.now at }
{
    match scan_digits::read_decimal(s, at) {
        Ok((n, _)) => n,
        Err(_) => 0,
    }
}

// The place after the comma at a place, or the end of the text.
fn after_comma(s: &[u8], at: usize) -> usize
    ensures { result ≡ after_comma s.now (read_bytes (44 ∷ []) (drop at s.now) at) }
{
    match scan::read_bytes(s, at, b",") {
        Ok(p) => p,
        Err(_) => s.len(),
    }
}

// The place after the number at a place and the comma behind it, or the end of the text.
fn after_number(s: &[u8], at: usize) -> usize
    ensures { result ≡ after_member s.now (read_decimal (drop at s.now) at) }
{
    match scan_digits::read_decimal(s, at) {
        Ok((_, p)) => after_comma(s, p),
        Err(_) => s.len(),
    }
}

// The place of the member that is k after the one at a place, in a list of numbers.
pub fn member(s: &[u8], at: usize, k: usize) -> usize
    ensures { result ≡ member_after s.now at k }
{
    let mut p = at;
    for _ in 0..k {
        p = after_number(s, p);
    }
    p
}

pub fn byte_at(s: &[u8], at: usize) -> u8
    ensures { result ≡ number_at s.now at % 256 }
{
    (number_at(s, at) % 256) as u8
}

pub fn word_at(s: &[u8], at: usize) -> u32
    ensures { result ≡ number_at s.now at % 4294967296 }
{
    (number_at(s, at) % 4294967296) as u32
}

// The number at a place, held at the most that there is.
fn held_at(s: &[u8], at: usize, most: usize) -> usize
    ensures { result ≤ most }
{
    let n = number_at(s, at) as usize;
    if n <= most { n } else { most }
}

// How many places of a buffer are lent: the number at a place. Both parts are said so that lending
// `&mut buf[..n]` asks for no proof.
pub fn room<T>(s: &[u8], at: usize, buf: &[T]) -> usize
    ensures { (result ≤ length buf.now) × (result ≡ length (take result buf.now)) }
{
    held_at(s, at, buf.len())
}

// What can stand in a list.
pub trait Listed: Copy {
    // The member at a place, and the place after its text; none where no such text stands there.
    ghost member_at: { List ℕ → ℕ → Option (Self × ℕ) };

    fn read(s: &[u8], at: usize) -> Option<(Self, usize)>
        ensures { result ≡ member_at s.now at };
}

impl Listed for f64 {
    ghost member_at = { float_member };

    fn read(s: &[u8], at: usize) -> Option<(f64, usize)> {
        let (bits, p) = scan_digits::read_hex(s, at).ok()?;
        Some((scan_digits::of_bits(bits), p))
    }
}

// A word stands there by its 16 digits.
impl Listed for u64 {
    ghost member_at = { word_member };

    fn read(s: &[u8], at: usize) -> Option<(u64, usize)> {
        scan_digits::read_hex(s, at).ok()
    }
}

// An id stands there by the 16 digits of its two's complement.
impl Listed for i64 {
    ghost member_at = { id_member };

    fn read(s: &[u8], at: usize) -> Option<(i64, usize)> {
        let (bits, p) = scan_digits::read_hex(s, at).ok()?;
        Some((id_of(bits), p))
    }
}

impl Listed for u8 {
    ghost member_at = { byte_member };

    fn read(s: &[u8], at: usize) -> Option<(u8, usize)> {
        let (n, p) = scan_digits::read_decimal(s, at).ok()?;
        Some(((n % 256) as u8, p))
    }
}

impl Listed for u32 {
    ghost member_at = { count_member };

    fn read(s: &[u8], at: usize) -> Option<(u32, usize)> {
        let (n, p) = scan_digits::read_decimal(s, at).ok()?;
        Some(((n % 4294967296) as u32, p))
    }
}

// The id of a pattern of bits, its two's complement.
fn id_of(bits: u64) -> i64
    ensures { result ≡ id_of bits }
{
    if bits < 0x8000_0000_0000_0000 {
        return bits as i64;
    }
    -1 - ((0xffff_ffff_ffff_ffff - bits) as i64)
}

// Reads the list at a place, as many members as there is room for, and says how many they are.
pub fn list_at<T: Listed>(s: &[u8], at: usize, out: &mut [T]) -> usize
    ensures { (result ≤ length out.new) × (result ≡ length (take result out.new)) }
{
    let mut p = at;
    for n in 0..out.len() {
        let Some((member, end)) = T::read(s, p) else {
            return n;
        };
        out[n] = member;
        p = after_comma(s, end);
    }
    out.len()
}

// ---- answers

// Each of these writes to the stream, and promises what on `Ok` the stream has more; an error may leave a part.

pub fn print_number<W: Write>(out: &mut W, n: u64) -> io::Result<()>
    ensures { OnOk result (Appends (W.contents out.old) (W.contents out.new) (decimal_of n)) }
{
    // As many bytes as the longest number has.
    let mut text = [0u8; 20];
    let end = digits::put_decimal(&mut text, 0, n);
    out.write_all(&text[..end])
}

// Between two fields.
pub fn print_space<W: Write>(out: &mut W) -> io::Result<()>
    ensures { OnOk result (Appends (W.contents out.old) (W.contents out.new) (32 ∷ [])) }
{
    out.write_all(b" ")
}

// A number after the field before it.
pub fn print_field<W: Write>(out: &mut W, n: u64) -> io::Result<()>
    ensures { OnOk result (Appends (W.contents out.old) (W.contents out.new) (32 ∷ decimal_of n)) }
{
    print_space(out)?;
    print_number(out, n)
}

pub fn print_end<W: Write>(out: &mut W) -> io::Result<()>
    ensures { OnOk result (Appends (W.contents out.old) (W.contents out.new) (10 ∷ [])) }
{
    out.write_all(b"\n")
}

// What stands before the member of a list at a place.
fn print_comma<W: Write>(out: &mut W, at: usize) -> io::Result<()>
    ensures { OnOk result (Appends (W.contents out.old) (W.contents out.new) (comma_before at)) }
{
    if at == 0 {
        return Ok(());
    }
    out.write_all(b",")
}

// What stands for a list of no members.
fn print_empty<W: Write>(out: &mut W, n: usize) -> io::Result<()>
    ensures { OnOk result (Appends (W.contents out.old) (W.contents out.new) (dash_for n)) }
{
    if 0 < n {
        return Ok(());
    }
    out.write_all(b"-")
}

fn wide(b: u8) -> u64
    ensures { result ≡ b }
{
    b as u64
}

pub fn print_bytes<W: Write>(out: &mut W, list: &[u8]) -> io::Result<()>
    ensures { OnOk result (Appends (W.contents out.old) (W.contents out.new) (list_field decimal_of list.now)) }
{
    print_space(out)?;
    print_empty(out, list.len())?;
    for (i, b) in list.iter().enumerate() {
        print_comma(out, i)?;
        print_number(out, wide(*b))?;
    }
    Ok(())
}

fn wide_u32(n: u32) -> u64
    ensures { result ≡ n }
{
    n as u64
}

pub fn print_u32s<W: Write>(out: &mut W, list: &[u32]) -> io::Result<()>
    ensures { OnOk result (Appends (W.contents out.old) (W.contents out.new) (list_field decimal_of list.now)) }
{
    print_space(out)?;
    print_empty(out, list.len())?;
    for (i, n) in list.iter().enumerate() {
        print_comma(out, i)?;
        print_number(out, wide_u32(*n))?;
    }
    Ok(())
}

pub fn print_words<W: Write>(out: &mut W, list: &[u64]) -> io::Result<()>
    ensures { OnOk result (Appends (W.contents out.old) (W.contents out.new) (list_field decimal_of list.now)) }
{
    print_space(out)?;
    print_empty(out, list.len())?;
    for (i, n) in list.iter().enumerate() {
        print_comma(out, i)?;
        print_number(out, *n)?;
    }
    Ok(())
}

pub fn print_float<W: Write>(out: &mut W, x: f64) -> io::Result<()>
    ensures { OnOk result (Appends (W.contents out.old) (W.contents out.new) (float_text x)) }
{
    let mut text = [0u8; 16];
    digits::put_hex(&mut text, 0, digits::bits_of(x));
    out.write_all(&text)
}

pub fn print_floats<W: Write>(out: &mut W, list: &[f64]) -> io::Result<()>
    ensures { OnOk result (Appends (W.contents out.old) (W.contents out.new) (list_field float_text list.now)) }
{
    print_space(out)?;
    print_empty(out, list.len())?;
    for (i, x) in list.iter().enumerate() {
        print_comma(out, i)?;
        print_float(out, *x)?;
    }
    Ok(())
}
