//! How many dependencies of a node have yet to lower it: the count that its pending word holds in a
//! cycle.
ghost use Rattle.std.specs.Prelude.{◌≡◌, ◌+◌, ◌<◌, ◌≤◌, false, true, length, All, Contains, slice_index_or, slice_set};
ghost use Rattle.std.specs.List.Sorted.{IsStrictlyIncreasing};
ghost use Rattle.board_rule.specs.activation.Left.{left_of, untold};

// 1 where the node at an index has not signalled yet.
fn untold_at(told: &[bool], m: usize) -> usize
    requires { m < length told.now }
    ensures is { result ≡ untold told.now m }
    ensures most { result ≤ 1 }
{
    if told[m] { 0 } else { 1 }
}

/// The count for a list of dependencies, of which `told` says by index which have signalled. Takes
/// no memory.
pub fn left_of(dependencies: &[usize], told: &[bool]) -> usize
    requires { All (λ m. m < length told.now) dependencies.now }
    ensures { result ≡ left_of (untold told.now) dependencies.now }
{
    let mut left = 0;
    for m in dependencies {
        left += untold_at(told, *m);
    }
    left
}

/// While nobody has signalled, the count is the required count.
pub fn left_at_start(dependencies: &[usize]) -> usize
    ensures { result ≡ left_of (λ _. 1) dependencies.now }
{
    dependencies.len()
}

/// The node `m` signals its targets: of each node that depends on it the count falls by one, of all
/// others it stays.
pub fn tell(_dependencies: &[usize], told: &mut [bool], m: usize)
    requires ascend { IsStrictlyIncreasing _dependencies.now }
    requires inside { m < length told.old }
    requires first { slice_index_or told.old m false ≡ false }
    ensures told { told.new ≡ slice_set told.old m true }
    ensures falls { Contains _dependencies.now m
        → left_of (untold told.old) _dependencies.now
        ≡ left_of (untold told.new) _dependencies.now + 1 }
    ensures stays { (Contains _dependencies.now m → ⊥)
        → left_of (untold told.new) _dependencies.now
        ≡ left_of (untold told.old) _dependencies.now }
{
    told[m] = true;
}
