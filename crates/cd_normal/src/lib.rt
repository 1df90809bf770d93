// `solve_normal_equations`: a square system of up to 54 unknowns, on every float.
#![tactic(auto)]

ghost use Rattle.std.specs.Prelude.{◌≡◌, [], ◌∷◌, ◌++◌, ◌+◌, ◌*◌, ◌≤◌, length};
ghost use Rattle.answer.specs.Answers.{lent_after};
ghost use Rattle.elimination_rows.specs.Holds.{Holds};
ghost use Rattle.cd_normal.specs.Normal.{system, normal_solved, solved_answer, unknowns_of, tests_answer, normal_answer};

use answer::Refusal;

// The most unknowns.
const MOST_UNKNOWNS: usize = 54;

// The most unknowns of a small and of a middling system, whose matrices take less to clear.
const FEW_UNKNOWNS: usize = 12;

const MORE_UNKNOWNS: usize = 20;

// A row of the matrix with its right side behind it.
fn put_row(to: &mut [f64], from: &[f64], last: f64)
    requires { length to.old ≡ length from.now + 1 }
    ensures { to.new ≡ from.now ++ (last ∷ []) }
{
    let n = from.len();
    elimination_rows::copy_row(&mut to[..n], from);
    to[n] = last;
}

// The system, row by row.
fn put_system(a: &[f64], b: &[f64], n: usize, m: &mut [f64])
    requires a_len { length a.now ≡ n * n }
    requires b_len { length b.now ≡ n }
    requires m_len { length m.old ≡ n * (n + 1) }
    ensures { Holds m.new n (n + 1) (system a.now b.now n) }
{
    let w = n + 1;
    for r in 0..n {
        let at = r * w;
        let end = at + w;
        let from = r * n;
        let to = from + n;
        put_row(&mut m[at..end], &a[from..to], b[r]);
    }
}

// The unknowns into the front of x, by way of a lent matrix.
fn solve_in(a: &[f64], b: &[f64], n: usize, m: &mut [f64], x: &mut [f64]) -> Result<(), Refusal>
    requires a_len { length a.now ≡ n * n }
    requires b_len { length b.now ≡ n }
    requires n_bound { (n ≤ 54) × (n ≤ length x.old) }
    requires m_len { length m.old ≡ n * (n + 1) }
    ensures { (result ≡ solved_answer (normal_solved a.now b.now n))
        × (x.new ≡ lent_after result (unknowns_of (normal_solved a.now b.now n)) x.old) }
{
    let w = n + 1;
    put_system(a, b, n, m);
    match elimination::eliminate(m, n, w) {
        Err(_) => Err(Refusal::Degenerate),
        Ok(()) => {
            elimination::unknowns(m, n, w, n, &mut x[..n]);
            Ok(())
        }
    }
}

// The same with a matrix of its own, of so many numbers.
fn solve_within<const NUMBERS: usize>(
    a: &[f64],
    b: &[f64],
    n: usize,
    x: &mut [f64],
) -> Result<(), Refusal>
    requires a_len { length a.now ≡ n * n }
    requires b_len { length b.now ≡ n }
    requires n_bound { (n ≤ 54) × (n ≤ length x.old) }
    requires matrix_fits { (n * (n + 1) ≤ NUMBERS) × (NUMBERS ≤ 2970) }
    ensures { (result ≡ solved_answer (normal_solved a.now b.now n))
        × (x.new ≡ lent_after result (unknowns_of (normal_solved a.now b.now n)) x.old) }
{
    let mut m = [0.0; NUMBERS];
    let size = n * (n + 1);
    solve_in(a, b, n, &mut m[..size], x)
}

// The solve in the least matrix that will do.
fn solve_sized(a: &[f64], b: &[f64], n: usize, x: &mut [f64]) -> Result<(), Refusal>
    requires a_len { length a.now ≡ n * n }
    requires b_len { length b.now ≡ n }
    requires n_bound { (n ≤ 54) × (n ≤ length x.old) }
    ensures { (result ≡ solved_answer (normal_solved a.now b.now n))
        × (x.new ≡ lent_after result (unknowns_of (normal_solved a.now b.now n)) x.old) }
{
    if n <= FEW_UNKNOWNS {
        return solve_within::<156>(a, b, n, x);
    }
    if n <= MORE_UNKNOWNS {
        return solve_within::<420>(a, b, n, x);
    }
    solve_within::<2970>(a, b, n, x)
}

// The tests before the solve, of the lengths of a, b and x.
fn check_lengths(a: usize, b: usize, n: usize, x: usize) -> Result<(), Refusal>
    ensures { result ≡ tests_answer a b n x }
{
    if n > MOST_UNKNOWNS {
        return Err(Refusal::Count);
    }
    if !((a == n * n) & (b == n)) {
        return Err(Refusal::Lengths);
    }
    answer::room_for(n, x)
}

// The unknowns of n equations, a given row by row, written from the front of x; or a refusal, which
// changes nothing.
pub fn solve_normal_equations(a: &[f64], b: &[f64], n: usize, x: &mut [f64]) -> Result<(), Refusal>
    ensures answer { result ≡ normal_answer a.now b.now n (length x.old) }
    ensures unknowns { x.new ≡ lent_after result (unknowns_of (normal_solved a.now b.now n)) x.old }
{
    check_lengths(a.len(), b.len(), n, x.len())?;
    solve_sized(a, b, n, x)
}
