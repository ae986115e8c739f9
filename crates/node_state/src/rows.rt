//! Rows of samples, copied as far as they fit.
ghost use Rattle.std.specs.Prelude.{◌≡◌, ◌++◌, length, min, take, drop};

/// Copies the first samples of `from` to the beginning of `to`, as many as fit. Answers how many.
pub(crate) fn copy_front(from: &[i16], to: &mut [i16]) -> usize
    ensures count { result ≡ min (length from.now) (length to.old) }
    ensures row { to.new ≡ take (length to.old) from.now ++ drop (length from.now) to.old }
{
    let n = from.len().min(to.len());
    to[..n].copy_from_slice(&from[..n]);
    n
}
