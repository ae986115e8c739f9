//! The points of a control sequence.
ghost use Rattle.std.specs.Prelude.{◌≡◌, ◌≤◌, ◌++◌, ◌⊎◌, option_map, option_to_list, IfOk, IfErr, OnOk, Some, None};
ghost use Rattle.pod_codec.specs.declared.pod.Pod.TheViews.{out-Pod, out-Control};
ghost use Rattle.control_sequence.specs.Points.{props_of, held_gain, gain_of, point_in, fault_in, AnswersPoints, IsPointsOf};
ghost use Rattle.control_sequence.specs.declared.fault.ControlFault.TheVariants.{Memory};
ghost use Rattle.control_sequence.specs.Automation.{ArePoints};

use crate::fault::ControlFault;
use crate::points::{Point, Points};
use pod_codec::{Control, Pod, Prop};
use pw_lists::{GAIN_LIMIT, Items};
use std::alloc::Global;

/// The object type Props. Source: `spa/utils/type.h`.
const PROPS: u32 = 0x40002;

/// The kind of a control that carries properties. Source: `spa/control/control.h`.
const PROPERTIES: u32 = 1;

/// The key of a gain; one of the custom keys of `spa/param/props.h`.
const GAIN: u32 = 0x1000001;

// The properties of an object of type Props.
fn props_of(value: &Pod) -> Option<&[Prop]>
    ensures { option_map (λ props. props.now) result ≡ props_of (out-Pod value.now) }
{
    match value {
        Pod::Object { object, props, .. } => {
            if *object == PROPS {
                Some(props.as_slice())
            } else {
                None
            }
        }
        _ => None,
    }
}

// The value of the first gain.
fn held_gain(props: &[Prop]) -> Option<&Pod>
    ensures { option_map (λ pod. pod.now) result ≡ held_gain props.now }
{
    match props.iter().find(|prop| prop.key == GAIN) {
        Some(prop) => Some(&prop.value),
        None => None,
    }
}

// A gain, if the value is one.
fn gain_of(value: &Pod) -> Option<i32>
    ensures { result ≡ gain_of value.now }
{
    match value {
        Pod::Int(g) => {
            if g.unsigned_abs() <= GAIN_LIMIT {
                Some(*g)
            } else {
                None
            }
        }
        _ => None,
    }
}

// The point of a control at this place, the one before which has this offset; or its fault.
fn point_at(control: &Control, index: u32, before: u32) -> Result<Option<Point>, ControlFault>
    ensures ok { IfOk result (λ point. (point ≡ point_in control.now)
        × (fault_in index before control.now ≡ None)
        × (before ≤ (out-Control control.now).offset)) }
    ensures err { IfErr result (λ fault. fault_in index before control.now ≡ Some fault) }
{
    let offset = control.offset;
    if offset < before {
        return Err(ControlFault::OffsetFalls { index });
    }
    if control.kind != PROPERTIES {
        return Ok(None);
    }
    let Some(props) = props_of(&control.value) else {
        return Err(ControlFault::NotProps { index });
    };
    let Some(value) = held_gain(props) else {
        return Ok(None);
    };
    match gain_of(value) {
        Some(g) => Ok(Some(Point { offset, g })),
        None => Err(ControlFault::GainForm { index }),
    }
}

// The point of a control, if it has one, is put after those before it.
fn add_point(
    control: &Control,
    index: usize,
    before: u32,
    items: &mut Items<Point>,
) -> Result<(), ControlFault>
    ensures ok { OnOk result (items.new ≡ items.old ++ option_to_list (point_in control.now)) }
    ensures passed { OnOk result ((fault_in index before control.now ≡ None)
        × (before ≤ (out-Control control.now).offset)) }
    ensures err { IfErr result
        (λ fault. (fault ≡ Memory) ⊎ (fault_in index before control.now ≡ Some fault)) }
{
    let Ok(place) = u32::try_from(index) else {
        return Err(ControlFault::Memory);
    };
    match point_at(control, place, before) {
        Ok(Some(point)) => Ok(items.push(point)?),
        Ok(None) => Ok(()),
        Err(fault) => Err(fault),
    }
}

// The points of controls.
fn points_of(alloc: Global, controls: &[Control]) -> Result<Points, ControlFault>
    ensures points { AnswersPoints controls.now result }
    ensures sound { IfOk result (λ points. ArePoints points.items) }
{
    let mut items = Items::new(alloc);
    let mut before = 0;
    for index in 0..controls.len() {
        let control = &controls[index];
        add_point(control, index, before, &mut items)?;
        before = control.offset;
    }
    Ok(Points { items })
}

/// The points of a Sequence: of each control of kind Properties whose value is an Object of type
/// Props with a gain, the control's offset in frames and the gain, in their order. Other controls
/// give none.
///
/// The controls are looked at in order, and of each first its offset, then its value, then the
/// gain: a fault is the first one. `Memory` for more than 2^32 controls. Takes memory for the
/// points; cost: one look at each control, and at the properties of those that carry any. Source:
/// PipeWire's documentation, "SPA POD"; `spa/control/control.h`.
pub fn controls_of(alloc: Global, pod: &Pod) -> Result<Points, ControlFault>
    ensures points { IsPointsOf pod.now result }
    ensures sound { IfOk result (λ points. ArePoints points.items) }
{
    match pod {
        Pod::Sequence { controls, .. } => points_of(alloc, controls.as_slice()),
        _ => Err(ControlFault::NotSequence),
    }
}
