//! Rows of samples through each kernel, and each kernel beside its plain twin.
ghost use Rattle.std.specs.Prelude.{◌≤◌};
ghost use Rattle.pw_lists.specs.Samples.{IsGain};

use s16_mixer::{clamp_out, gain, map_channels, mix_into, mix2, peak, plain, split};

#[test]
fn three_sources_are_added_and_clamped_once(rt: HostRuntime) {
    let mut sum = [0, 0, 0, 5];
    mix_into(sum.as_mut_slice(), [-32768i16, 30000, 32767, -7].as_slice());
    assert!(rt; sum.as_slice() == [-32768, 30000, 32767, -2].as_slice());
    mix_into(sum.as_mut_slice(), [-32768i16, 30000, 1, 1].as_slice());
    assert!(rt; sum.as_slice() == [-65536, 60000, 32768, -1].as_slice());
    mix_into(sum.as_mut_slice(), [0i16, -30000, 0, 0].as_slice());
    let mut to = [9i16; 4];
    clamp_out(sum.as_slice(), to.as_mut_slice());
    assert!(rt; to.as_slice() == [-32768i16, 30000, 32767, -1].as_slice());
}

// What a gain makes of one sample, and what a mixer makes of it that adds nothing.
fn gained(g: i32, x: i16) -> [i16; 2]
    requires { IsGain g }
{
    let (mut one, mut two) = ([9i16], [9i16]);
    gain(g, [x].as_slice(), one.as_mut_slice());
    mix2(g, 0, [x].as_slice(), [5i16].as_slice(), two.as_mut_slice());
    [one[0], two[0]]
}

#[test]
fn gains_round_towards_minus_infinity(rt: HostRuntime) {
    assert!(rt; gained(128, -1) == [-1, -1]);
    assert!(rt; gained(-32767, -32768) == [32767, 32767]);
    assert!(rt; gained(256, -32768) == [-32768, -32768]);
    assert!(rt; gained(128, 3) == [1, 1]);
    assert!(rt; gained(0, 77) == [0, 0]);
}

#[test]
fn two_rows_are_mixed(rt: HostRuntime) {
    let mut to = [0i16; 3];
    mix2(
        128,
        -128,
        [1i16, 32767, 5].as_slice(),
        [2i16, -32768, 5].as_slice(),
        to.as_mut_slice(),
    );
    assert!(rt; to == [-1, 32767, 0]);
}

#[test]
fn channels_are_swapped_taken_twice_and_split(rt: HostRuntime) {
    let frames = [1i16, 10, 2, 20];
    let mut swapped = [0i16; 4];
    map_channels(
        2,
        [1u32, 0].as_slice(),
        frames.as_slice(),
        swapped.as_mut_slice(),
    );
    assert!(rt; swapped == [10, 1, 20, 2]);
    let mut twice = [0i16; 6];
    map_channels(
        2,
        [0u32, 0, 1].as_slice(),
        frames.as_slice(),
        twice.as_mut_slice(),
    );
    assert!(rt; twice == [1, 1, 10, 2, 2, 20]);
    let (mut left, mut right) = ([0i16; 2], [0i16; 2]);
    split(frames.as_slice(), left.as_mut_slice(), right.as_mut_slice());
    assert!(rt; left == [1, 2] && right == [10, 20]);
}

#[test]
fn peaks_are_found(rt: HostRuntime) {
    assert_eq!(rt; peak([5i16, -9].as_slice()), 9);
    assert_eq!(rt; peak([-32768i16, 32767].as_slice()), 32768);
    assert_eq!(rt; peak(&[]), 0);
}

/// The longest row of samples.
const WIDE: usize = 130;

// A row of samples, each unlike its neighbours.
fn row_of() -> [i16; WIDE] {
    let mut row = [0; WIDE];
    let mut x: i16 = 7;
    for place in row.as_mut_slice() {
        x = x.wrapping_mul(25173).wrapping_add(13849);
        *place = x;
    }
    row
}

// The kernels of one row on `n` samples, over lanes and by their plain twins.
fn gains_and_peaks_agree(n: usize) -> bool
    requires { n ≤ 130 }
{
    let (a, mut one, mut two) = (row_of(), row_of(), row_of());
    let (a, one, two) = (&a[..n], &mut one[..n], &mut two[..n]);
    gain(200, a, one);
    plain::gain(200, a, two);
    let gains = *one == *two;
    mix2(200, -250, a, a, one);
    plain::mix2(200, -250, a, a, two);
    gains && *one == *two && peak(a) == plain::peak(a)
}

// The same of the kernels that add and limit.
fn sums_agree(n: usize) -> bool
    requires { n ≤ 130 }
{
    let (mut one, mut two) = ([30000i32; WIDE], [30000i32; WIDE]);
    let (a, mut left, mut right) = (row_of(), row_of(), row_of());
    let (a, one, two) = (&a[..n], &mut one[..n], &mut two[..n]);
    let (left, right) = (&mut left[..n], &mut right[..n]);
    mix_into(one, a);
    plain::mix_into(two, a);
    clamp_out(one, left);
    plain::clamp_out(one, right);
    *one == *two && *left == *right
}

// The channels of stereo frames swapped, and the two halves, over lanes and by plain loops.
fn channels_agree(frames: usize) -> bool
    requires { frames ≤ 65 }
{
    let (a, mut one, mut two) = (row_of(), row_of(), row_of());
    let n = 2 * frames;
    let (a, one, two) = (&a[..n], &mut one[..n], &mut two[..n]);
    map_channels(2, [1u32, 0].as_slice(), a, one);
    plain::map_channels(2, [1u32, 0].as_slice(), a, two);
    let swapped = *one == *two;
    let (left, right) = one.split_at_mut(frames);
    let (x, y) = two.split_at_mut(frames);
    split(a, left, right);
    plain::split(a, x, y);
    swapped && *left == *x && *right == *y
}

#[test]
fn lanes_leave_what_plain_loops_leave(rt: HostRuntime) {
    // Nothing, one sample, one lane, and one lane and one.
    for n in [0, 1, 128, 129] {
        assert!(rt; gains_and_peaks_agree(n), "{n} samples");
        assert!(rt; sums_agree(n), "{n} samples");
    }
    for frames in [0, 1, 64, 65] {
        assert!(rt; channels_agree(frames), "{frames} frames");
    }
}
