//! Rows of numbers in even steps, and what two of them have in common.
ghost use Rattle.std.specs.Prelude.{◌≡◌, ◌↔◌, ℕ, ℤ, pos, ◌+◌, ◌*◌, ◌/◌, ◌%◌, ◌<◌, ◌≤◌, ◌^◌, ◌+ℤ◌};
ghost use Rattle.std.specs.Prelude.{◌<ℤ◌, ◌≤ℤ◌, IfSome, IsNone};
ghost use Rattle.format_filter.specs.working.Progression.{AreSolutions, AreInBoth, AreFrom};

/// The numbers `min`, `min + step`, and so on, up to `max`.
#[derive(Clone, Copy, Drop)]
pub struct Row {
    pub min: i64,
    pub max: i64,
    pub step: i64,
}

/// Numbers in even steps, by how many there are.
#[derive(Clone, Copy, Drop)]
pub enum Numbers {
    Nothing,
    One(i64),
    /// The lesser one first.
    Two(i64, i64),
    /// At least three, whose greatest is `max`.
    More(Row),
}

/// The numbers `first`, `first + period`, and so on.
#[derive(Clone, Copy, Drop)]
pub struct Solutions {
    pub first: u64,
    pub period: u64,
}

/// What has to be added to `n` so that both together are divided by `by`: less than `by`.
fn complement(n: u64, by: u64) -> u64
    requires { 0 < by }
    ensures less { result < by }
    ensures whole { (m : ℕ) → m % by ≡ result → (n + m) % by ≡ 0 }
    ensures only { (m : ℕ) → (n + m) % by ≡ 0 → m % by ≡ result }
{
    let rest = n % by;
    if rest == 0 { 0 } else { by - rest }
}

/// The `k` for which `k * step` has the rest `rest` when it is divided by `other`, by the extended
/// Euclid: as `k * step = rest + j * other`, the `j` are those of a lesser congruence. Its depth is
/// logarithmic.
fn solve(step: u64, other: u64, rest: u64) -> Option<Solutions>
    requires { rest < other }
    ensures some { IfSome result (AreSolutions step other rest) }
    ensures none { IsNone result → (k : ℕ) → (k * step) % other ≡ rest → ⊥ }
{
    let step = step % other;
    if step == 0 {
        return if rest == 0 {
            Some(Solutions {
                first: 0,
                period: 1,
            })
        } else {
            None
        };
    }
    match solve(other, step, complement(rest, step)) {
        Some(turned) => Some(Solutions {
            first: turned_back(rest, turned.first, other, step),
            period: turned_back(0, turned.period, other, step),
        }),
        None => None,
    }
}

/// `(rest + count * other) / step`.
fn turned_back(rest: u64, count: u64, other: u64, step: u64) -> u64
    requires positive { 0 < step }
    requires room { rest + count * other < step * 2 ^ 64 }
    ensures { result ≡ (rest + count * other) / step }
{
    ((u128::from(rest) + u128::from(count) * u128::from(other)) / u128::from(step)) as u64
}

/// The product of two numbers.
fn product(a: u64, b: u64) -> u128
    ensures { result ≡ a * b }
{
    u128::from(a) * u128::from(b)
}

/// The number that is so far above another.
fn above(low: i64, by: u128) -> i64
    requires { (low +ℤ pos by) ≤ℤ pos 9223372036854775807 }
    ensures { result ≡ low +ℤ pos by }
{
    (i128::from(low) + by as i128) as i64
}

/// The numbers `low + first`, `low + first + period`, and so on, up to `high`.
fn numbers_from(low: i64, high: i64, first: u128, period: u128) -> Numbers
    requires order { low ≤ℤ high }
    requires positive { 0 < period }
    ensures { AreFrom low high first period result }
{
    let span = u128::from(high.abs_diff(low));
    if span < first {
        return Numbers::Nothing;
    }
    let more = (span - first) / period;
    if more == 0 {
        return Numbers::One(above(low, first));
    }
    if more == 1 {
        return Numbers::Two(above(low, first), above(low, first + period));
    }
    Numbers::More(Row {
        min: above(low, first),
        max: above(low, first + more * period),
        step: period as i64,
    })
}

/// What two rows have in common, of which `early` does not begin after `late`.
fn common_after(late: Row, early: Row) -> Numbers
    requires order { early.min ≤ℤ late.min }
    requires late { pos 0 <ℤ late.step }
    requires early { pos 0 <ℤ early.step }
    ensures { AreInBoth late early result }
{
    let high = late.max.min(early.max);
    if high < late.min {
        return Numbers::Nothing;
    }
    let (step, other) = (late.step.cast_unsigned(), early.step.cast_unsigned());
    let rest = complement(late.min.abs_diff(early.min), other);
    match solve(step, other, rest) {
        Some(found) => {
            let (first, period) = (product(found.first, step), product(found.period, step));
            numbers_from(late.min, high, first, period)
        }
        None => Numbers::Nothing,
    }
}

/// What two rows have in common. Takes no memory, and time logarithmic in the steps.
#[tactic(auto, using(crate::proofs::InBothLemmas::turned))]
pub fn common_numbers(a: Row, b: Row) -> Numbers
    requires a { pos 0 <ℤ a.step }
    requires b { pos 0 <ℤ b.step }
    ensures { AreInBoth a b result }
{
    if a.min <= b.min {
        common_after(b, a)
    } else {
        common_after(a, b)
    }
}
