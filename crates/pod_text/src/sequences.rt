//! The control sequence of points.
ghost use Rattle.std.specs.Prelude.{◌≡◌, IfOk, Ok};
ghost use Rattle.std.specs.List.{AllZip};
ghost use Rattle.pod_codec.specs.declared.pod.Pod.TheViews.{out-Pod};
ghost use Rattle.control_sequence.specs.Automation.{ArePoints};
ghost use Rattle.control_sequence.specs.Points.{points_in};
ghost use Rattle.pod_text.specs.GainSequence.{HasGain, IsGainObject, IsControlOf, IsWith, IsSequenceOf};

use control_sequence::{Point, Points};
use pod_codec::{Control, Pod, Prop};
use pw_lists::{Items, Memory};
use std::alloc::Global;

/// The object type Props, and its id. Source: `spa/utils/type.h`, `spa/param/param.h`.
const PROPS: u32 = 0x40002;

const PROPS_ID: u32 = 2;

/// The kind of a control that carries properties. Source: `spa/control/control.h`.
const PROPERTIES: u32 = 1;

/// The key of a gain; one of the custom keys of `spa/param/props.h`.
const GAIN: u32 = 0x1000001;

// Only the property of a gain.
fn gain_alone(alloc: Global, g: i32) -> Result<Items<Prop>, Memory>
    ensures { IfOk result (HasGain g) }
{
    let mut props = Items::new(alloc);
    props.push(Prop {
        key: GAIN,
        flags: 0,
        value: Pod::Int(g),
    })?;
    Ok(props)
}

// The object of it.
fn gain_object(props: Items<Prop>, g: i32) -> Pod
    requires { HasGain g props }
    ensures { IsGainObject g (out-Pod result) }
{
    Pod::Object {
        object: PROPS,
        id: PROPS_ID,
        props,
    }
}

// The control of a point.
fn control_of(alloc: Global, point: &Point) -> Result<Control, Memory>
    ensures { IfOk result (IsControlOf point.now) }
{
    let props = gain_alone(alloc, point.g)?;
    Ok(Control {
        offset: point.offset,
        kind: PROPERTIES,
        value: gain_object(props, point.g),
    })
}

// The controls of points, in their order.
fn controls_of(alloc: Global, points: &[Point]) -> Result<Items<Control>, Memory>
    ensures { IfOk result (AllZip IsControlOf points.now) }
{
    let mut controls = Items::new(alloc);
    controls.reserve(points.len())?;
    for index in 0..points.len() {
        let point = &points[index];
        let control = control_of(alloc, point)?;
        controls.push(control)?;
    }
    Ok(controls)
}

// The sequence of controls.
fn sequence_with(controls: Items<Control>) -> Pod
    ensures { IsWith controls (out-Pod result) }
{
    Pod::Sequence { unit: 0, controls }
}

/// The control sequence of points: for each a control of kind Properties at its offset, whose value
/// is an Object of type Props with only the gain, an Int. `control_sequence::controls_of` reads
/// these points of it again. Takes memory for each point.
///
/// Public source: PipeWire's documentation, "SPA POD"; `spa/control/control.h`,
/// `spa/param/props.h`.
pub fn sequence_of(alloc: Global, points: &Points) -> Result<Pod, Memory>
    requires { ArePoints points.now.items }
    ensures sequence { IfOk result (IsSequenceOf points.now.items) }
    // What is read of it are the points.
    ensures law { IfOk result (λ pod. points_in (out-Pod pod) ≡ Ok points.now.items) }
{
    let controls = controls_of(alloc, points.items.as_slice())?;
    Ok(sequence_with(controls))
}
