//! The input of a port in a cycle: what its links bring, added and then clamped once.
ghost use Rattle.std.specs.Prelude.{◌≡◌, ℕ, ◌*◌, ◌<◌, ◌^◌, List, [], length, map, pos, min, IfOk, OnOk};
ghost use Rattle.pw_lists.specs.Samples.{clamped, silence, summed};
ghost use Rattle.cycle_model.specs.working.Known.{given_at, brought_by, input_by};

use crate::epochs::channels_of;
use crate::received::{Given, Setting};
use pw_graph::{PortId, ShapeLink, is_same_port};
use pw_lists::{Items, Memory};
use std::alloc::Global;

/// What a port gave, nothing if it is not known.
fn given_at(given: &[Given], port: PortId) -> &[i16]
    ensures { result.now ≡ given_at given.now port }
{
    for one in given {
        if is_same_port(one.port, port) {
            return one.samples.as_slice();
        }
    }
    &[]
}

/// `quantum` frames of `channels` channels, in samples.
pub(crate) fn samples_in(quantum: u32, channels: u32) -> usize
    ensures { result ≡ quantum * channels }
{
    (u64::from(quantum) * u64::from(channels)) as usize
}

/// Writes the sum of each two samples; `Memory` where one does not fit, which takes more rows than
/// memory can hold.
fn add(sums: &[i64], row: &[i16], to: &mut [i64]) -> Result<(), Memory>
    requires { length to.old ≡ min (length sums.now) (length row.now) }
    ensures { OnOk result (to.new ≡ summed sums.now row.now) }
{
    for i in 0..to.len() {
        match sums[i].checked_add(i64::from(row[i])) {
            Some(sum) => to[i] = sum,
            None => return Err(Memory),
        }
    }
    Ok(())
}

/// The sums with one row more.
fn added(alloc: Global, sums: &[i64], row: &[i16]) -> Result<Items<i64>, Memory>
    ensures { IfOk result (λ more. more ≡ summed sums.now row.now) }
{
    let mut to = Items::filled(alloc, sums.len().min(row.len()), 0)?;
    add(sums, row, to.as_mut_slice())?;
    Ok(to)
}

/// The sums with what a link brings.
fn with_link(
    alloc: Global,
    at: &Setting<'_>,
    now: &[Given],
    link: &ShapeLink,
    sums: &[i64],
) -> Result<Items<i64>, Memory>
    ensures { IfOk result (λ more. more ≡ summed sums.now
        (brought_by at.now.quantum at.now.first at.now.before.now now.now link.now)) }
{
    if !link.delayed {
        return added(alloc, sums, given_at(now, link.from));
    }
    if at.first {
        let zeros = Items::filled(alloc, samples_in(at.quantum, link.channels), 0)?;
        return added(alloc, sums, zeros.as_slice());
    }
    added(alloc, sums, given_at(at.before, link.from))
}

/// Writes each sum, limited to a sample's range.
fn clamp(sums: &[i64], to: &mut [i16])
    requires { length sums.now ≡ length to.old }
    ensures { to.new ≡ map clamped sums.now }
{
    for i in 0..to.len() {
        to[i] = sums[i].clamp(-32768, 32767) as i16;
    }
}

/// The input of a port in a cycle, by what ports gave in the cycle before and in this one.
pub(crate) fn input_of(
    alloc: Global,
    at: &Setting<'_>,
    now: &[Given],
    port: PortId,
) -> Result<Items<i16>, Memory>
    ensures { IfOk result (λ row. row
        ≡ input_by at.now.quantum at.now.first at.now.before.now now.now at.now.epoch.now port) }
{
    let epoch = at.epoch;
    let channels = channels_of(epoch.forms.as_slice(), port);
    let mut sums = Items::filled(alloc, samples_in(at.quantum, channels), 0)?;
    for link in epoch.shape.links.as_slice() {
        if is_same_port(link.to, port) {
            sums = with_link(alloc, at, now, link, sums.as_slice())?;
        }
    }
    let mut row = Items::filled(alloc, sums.len(), 0)?;
    clamp(sums.as_slice(), row.as_mut_slice());
    Ok(row)
}
