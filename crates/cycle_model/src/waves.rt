//! Whether waves fit a plan.
ghost use Rattle.std.specs.Prelude.{◌≡◌, ℕ, ◌≤◌, ◌==◌, ◌↔◌, IsTrue, All, length, count_by};
ghost use Rattle.pw_lists.specs.Limits.{nodes_limit};
ghost use Rattle.pw_graph.specs.declared.kind.Kind.TheVariants.{Source};
ghost use Rattle.pw_graph.specs.PlanForms.{kind_at};
ghost use Rattle.cycle_model.specs.WavesFit.{IsFormOf, IsWaveOfSource, WavesFit};

use pw_graph::{Epoch, Kind, Plan, PortForm};
use pw_lists::Items;
use wav_files::WavIn;

/// Whether a node is a source of the plan.
fn is_source(plan: &Plan, node: u32) -> bool
    ensures { IsTrue result ↔ (kind_at plan.now node ≡ Source) }
{
    match plan.nodes.as_slice().get(node as usize) {
        Some(known) => matches!(&known.kind, Kind::Source),
        None => false,
    }
}

/// Whether a form is of another node, or has the rate and channels of the wave.
fn is_form_of(wave: &WavIn, form: &PortForm) -> bool
    ensures { IsTrue result ↔ IsFormOf wave.now form.now }
{
    form.port.node != wave.node
        || (form.rate == wave.wav.rate && form.channels == wave.wav.channels)
}

/// Whether all forms of an epoch are.
fn are_forms_of(wave: &WavIn, epoch: &Epoch) -> bool
    ensures { IsTrue result ↔ All (IsFormOf wave.now) epoch.now.forms }
{
    epoch
        .forms
        .as_slice()
        .iter()
        .all(|form| is_form_of(wave, form))
}

/// Whether a wave is that of a source, in each form that its port has.
fn is_wave_of_source(plan: &Plan, wave: &WavIn) -> bool
    ensures { IsTrue result ↔ IsWaveOfSource plan.now wave.now }
{
    is_source(plan, wave.node)
        && plan
            .epochs
            .as_slice()
            .iter()
            .all(|epoch| are_forms_of(wave, epoch))
}

/// Whether all waves are.
fn are_waves_of_sources(plan: &Plan, waves: &[WavIn]) -> bool
    ensures { IsTrue result ↔ All (IsWaveOfSource plan.now) waves.now }
{
    waves.iter().all(|wave| is_wave_of_source(plan, wave))
}

/// Whether a node has just one wave.
fn has_one(waves: &[WavIn], node: u32) -> bool
    ensures { IsTrue result ↔ (count_by (λ w. w.node == node) waves.now ≡ 1) }
{
    waves.iter().filter(|wave| wave.node == node).count() == 1
}

/// Whether each source has just one wave.
fn have_one(plan: &Plan, waves: &[WavIn]) -> bool
    requires { length plan.now.nodes ≤ nodes_limit }
    ensures { IsTrue result ↔ ((node : ℕ) → kind_at plan.now node ≡ Source
        → count_by (λ w. w.node == node) waves.now ≡ 1) }
{
    for n in 0..plan.nodes.len() {
        if is_source(plan, n as u32) && !has_one(waves, n as u32) {
            return false;
        }
    }
    true
}

/// Whether there is one wave for each source of the plan and no other, each with the rate and
/// channels of its source's port. Takes no memory.
pub fn waves_fit(plan: &Plan, waves: &Items<WavIn>) -> bool
    requires { length plan.now.nodes ≤ nodes_limit }
    ensures { IsTrue result ↔ WavesFit plan.now waves.now }
{
    are_waves_of_sources(plan, waves.as_slice()) && have_one(plan, waves.as_slice())
}
