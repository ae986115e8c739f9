//! Words within one letter, or two, of each other.
ghost use Rattle.std.specs.Prelude.{◌≡◌};
ghost use Rattle.word_hints.specs.Nearness.{is_one_near, is_first_swapped, is_swapped, is_two_near, is_near};

// Within one letter.
fn is_one_near(a: &[u8], b: &[u8]) -> bool
    ensures { result ≡ is_one_near a.now b.now }
{
    match a {
        [] => b.len() <= 1,
        [x, xs @ ..] => match b {
            [] => a.len() <= 1,
            [y, ys @ ..] => { (*x == *y && is_one_near(xs, ys)) || xs == b || a == ys || xs == ys }
        },
    }
}

// Whether the first two letters are in each other's place, and what follows them is the same.
fn is_first_swapped(x: u8, xs: &[u8], y: u8, ys: &[u8]) -> bool
    ensures { result ≡ is_first_swapped x xs.now y ys.now }
{
    match xs {
        [] => false,
        [a, more @ ..] => match ys {
            [] => false,
            [b, others @ ..] => x == *b && (*a == y && more == others),
        },
    }
}

// Whether two neighbours are in each other's place.
fn is_swapped(a: &[u8], b: &[u8]) -> bool
    ensures { result ≡ is_swapped a.now b.now }
{
    match a {
        [] => false,
        [x, xs @ ..] => match b {
            [] => false,
            [y, ys @ ..] => (*x == *y && is_swapped(xs, ys)) || is_first_swapped(*x, xs, *y, ys),
        },
    }
}

// Within two letters.
fn is_two_near(a: &[u8], b: &[u8]) -> bool
    ensures { result ≡ is_two_near a.now b.now }
{
    match a {
        [] => b.len() <= 2,
        [x, xs @ ..] => match b {
            [] => a.len() <= 2,
            [y, ys @ ..] => {
                (*x == *y && is_two_near(xs, ys))
                    || is_one_near(xs, b)
                    || is_one_near(a, ys)
                    || is_one_near(xs, ys)
            }
        },
    }
}

/// Whether the words are within one letter of each other, or two neighbours changed places; for
/// another number, within two.
pub fn is_near(k: u32, a: &[u8], b: &[u8]) -> bool
    ensures { result ≡ is_near k a.now b.now }
{
    if k == 1 {
        is_one_near(a, b) || is_swapped(a, b)
    } else {
        is_two_near(a, b)
    }
}
