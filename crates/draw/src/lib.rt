// The fixed draw: the words, and the three places of each trial.
#![tactic(auto)]

ghost use Rattle.std.specs.Prelude.{◌≡◌, ◌<◌, ◌%◌};
ghost use Rattle.draw.specs.Draw.{next_word, three_after, triple_of, is_repeated};

// Three places drawn, and the word after them.
#[derive(Clone, Copy)]
pub struct Three {
    pub a: usize,
    pub b: usize,
    pub c: usize,
    pub word: u64,
}

// The word after x. Bits shifted past the top are dropped.
pub fn next_word(x: u64) -> u64
    ensures { result ≡ next_word x }
{
    let a = x ^ (x << 13);
    let b = a ^ (a >> 7);
    b ^ (b << 17)
}

// The place that a word draws from n.
fn place_of(word: u64, n: usize) -> usize
    requires { 0 < n }
    ensures { result ≡ word % n }
{
    (word % n as u64) as usize
}

// One trial's draw: each place comes from the word after its step.
pub fn draw_three(word: u64, n: usize) -> Three
    requires { 0 < n }
    ensures { result ≡ three_after n word }
{
    let first = next_word(word);
    let second = next_word(first);
    let third = next_word(second);
    Three {
        a: place_of(first, n),
        b: place_of(second, n),
        c: place_of(third, n),
        word: third,
    }
}

// Whether two of the places are equal: such a trial is skipped.
pub fn is_repeated(t: Three) -> bool
    ensures { result ≡ is_repeated (triple_of t) }
{
    (t.a == t.b) | ((t.b == t.c) | (t.a == t.c))
}
