// Masks: a byte for each row, one where the row is on and zero where it is off.
#![tactic(auto)]

ghost use Rattle.std.specs.Prelude.{◌≡◌, ◌≤◌, eqb, length, replicate};
ghost use Rattle.answer.specs.Answers.{written};
ghost use Rattle.cd_mask.specs.Marks.{byte_of, ones};

// 1 of a byte that is one, 0 of any other.
pub fn is_on(b: u8) -> usize
    ensures { result ≡ byte_of (eqb b 1) }
{
    if b == 1 { 1 } else { 0 }
}

// How many bytes are one.
pub fn count_on(mask: &[u8]) -> usize
    ensures { result ≡ ones mask.now }
{
    let mut count = 0usize;
    for b in mask {
        count += is_on(*b);
    }
    count
}

// Turns the first n rows on; the places past them keep their bytes.
pub fn fill_ones(mask: &mut [u8], n: usize)
    requires { n ≤ length mask.old }
    ensures { mask.new ≡ written (replicate n 1) mask.old }
{
    mask[..n].fill(1);
}
