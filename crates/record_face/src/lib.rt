// The record for C: each call answers its number, and writes its result into what is lent.
#![tactic(auto)]

ghost use Rattle.std.specs.Prelude.{◌≡◌, [], ◌≤◌, length};
ghost use Rattle.answer.specs.Answers.{answer_number, lent_after, number_after};
ghost use Rattle.record.specs.Record.{record_text};
ghost use Rattle.record_load.specs.Load.{loaded_number};
ghost use Rattle.record_face.specs.Face.{sip_in, solution_in, record_face};
ghost use Rattle.record_face.specs.Read.{lent, RecordRead, places_of, put_in, RoomWhereRead};

use answer::Refusal;
use record_load::LoadError;
use record_reader::Shown;
use sip_terms::Sip;
use wcs::Wcs;

// What a fit hands back, from the rows used and three sums: linear_rms, rms, wrms.
fn sip_in(rows_used: usize, sums: &[f64]) -> Sip
    requires { 3 ≤ length sums.now }
    ensures { result ≡ sip_in rows_used sums.now }
{
    Sip::new(rows_used, sums[0], sums[1], sums[2])
}

// The record of a solution from the front of the text, and how many bytes it has. The WCS is six numbers, the sums are three.
pub fn write_record(
    rows_used: u64,
    wcs: &[f64],
    order: u32,
    a: &[f64],
    b: &[f64],
    sums: &[f64],
    text: &mut [u8],
    written: &mut u64,
) -> u32
    ensures number { result ≡ answer_number
        (record_face rows_used wcs.now order a.now b.now sums.now (length text.old)) }
    ensures text { text.new ≡ lent_after
        (record_face rows_used wcs.now order a.now b.now sums.now (length text.old))
        (record_text (solution_in rows_used wcs.now order a.now b.now sums.now))
        text.old }
    ensures written { written.new ≡ number_after
        (record_face rows_used wcs.now order a.now b.now sums.now (length text.old))
        (length (record_text (solution_in rows_used wcs.now order a.now b.now sums.now)))
        written.old }
{
    let rows = rows_used as usize;
    if (wcs.len() != 6) | (sums.len() != 3) {
        if record::MOST_ROWS < rows {
            return Refusal::Count.number();
        }
        return Refusal::Lengths.number();
    }
    let fit = sip_in(rows, sums);
    match record::write_record(fit, Wcs::of(wcs), order, a, b, text) {
        Err(why) => why.number(),
        Ok(count) => {
            *written = count as u64;
            0
        }
    }
}

// The places of a that may be filled: none where the WCS or the sums have no room, so that the coefficients have none either.
fn places(a: usize, wcs: usize, sums: usize) -> usize
    ensures { (result ≡ places_of a wcs sums) × (result ≤ a) }
{
    if (wcs < 6) | (sums < 3) {
        return 0;
    }
    a
}

// What was read beside the coefficients, into what is lent.
fn put_loaded(
    read: Result<Shown, LoadError>,
    format: &mut u32,
    rows_used: &mut u64,
    wcs: &mut [f64],
    order: &mut u32,
    sums: &mut [f64],
    line: &mut u64,
) -> u32
    requires { RoomWhereRead read (length wcs.old) (length sums.old) }
    ensures number { result ≡ loaded_number read }
    ensures after { lent format.new rows_used.new wcs.new order.new
        [] [] sums.new line.new ≡ put_in read
        (lent format.old rows_used.old wcs.old order.old
        [] [] sums.old line.old) }
{
    match read {
        Err(LoadError::Refused(why)) => why.number(),
        Err(LoadError::Wrong(wrong)) => {
            *line = wrong.line as u64;
            Refusal::Form.number()
        }
        Ok(shown) => {
            *format = shown.format;
            sip_terms::put_sip(shown.fit, rows_used, sums);
            wcs::put_wcs(shown.wcs, wcs);
            *order = shown.order;
            0
        }
    }
}

// The solution that a record shows, and the number of its format; or the number of its first wrong line.
pub fn read_record(
    text: &[u8],
    format: &mut u32,
    rows_used: &mut u64,
    wcs: &mut [f64],
    order: &mut u32,
    a: &mut [f64],
    b: &mut [f64],
    sums: &mut [f64],
    line: &mut u64,
) -> u32
    ensures { RecordRead text.now
        (lent format.old rows_used.old wcs.old order.old
        a.old b.old sums.old line.old) result
        (lent format.new rows_used.new wcs.new order.new
        a.new b.new sums.new line.new) }
{
    let room = places(a.len(), wcs.len(), sums.len());
    let read = record_load::read_record(text, &mut a[..room], b);
    put_loaded(read, format, rows_used, wcs, order, sums, line)
}
