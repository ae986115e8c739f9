//! Equal values in memory of their own.
ghost use Rattle.std.specs.Prelude.{◌≡◌, IfOk};

use crate::pod::{Control, Pod, Prop};
use pw_lists::{Items, Memory};
use std::alloc::Global;

impl Pod {
    /// An equal value.
    #[cycle(copy)]
    pub fn copy(&self, alloc: Global) -> Result<Pod, Memory>
        ensures { IfOk result (λ pod. pod ≡ self.now) }
    {
        match self {
            Pod::None => Ok(Pod::None),
            Pod::Bool(set) => Ok(Pod::Bool(*set)),
            Pod::Id(id) => Ok(Pod::Id(*id)),
            Pod::Int(n) => Ok(Pod::Int(*n)),
            Pod::Long(n) => Ok(Pod::Long(*n)),
            Pod::FloatBits(bits) => Ok(Pod::FloatBits(*bits)),
            Pod::DoubleBits(bits) => Ok(Pod::DoubleBits(*bits)),
            Pod::Text(text) => Ok(Pod::Text(text.copy(alloc)?)),
            Pod::Bytes(bytes) => Ok(Pod::Bytes(bytes.copy(alloc)?)),
            Pod::Rectangle { width, height } => Ok(Pod::Rectangle {
                width: *width,
                height: *height,
            }),
            Pod::Fraction { num, denom } => Ok(Pod::Fraction {
                num: *num,
                denom: *denom,
            }),
            Pod::Bitmap(bits) => Ok(Pod::Bitmap(bits.copy(alloc)?)),
            Pod::Fd(fd) => Ok(Pod::Fd(*fd)),
            Pod::Array { child, values } => Ok(Pod::Array {
                child: *child,
                values: copy_pods(alloc, values.as_slice())?,
            }),
            Pod::Struct(fields) => Ok(Pod::Struct(copy_pods(alloc, fields.as_slice())?)),
            Pod::Object { object, id, props } => Ok(Pod::Object {
                object: *object,
                id: *id,
                props: copy_props(alloc, props.as_slice())?,
            }),
            Pod::Choice {
                kind,
                flags,
                child,
                values,
            } => Ok(Pod::Choice {
                kind: *kind,
                flags: *flags,
                child: *child,
                values: copy_pods(alloc, values.as_slice())?,
            }),
            Pod::Sequence { unit, controls } => Ok(Pod::Sequence {
                unit: *unit,
                controls: copy_controls(alloc, controls.as_slice())?,
            }),
        }
    }
}

/// Equal values, in this order. Takes memory and time proportional to all that they hold.
#[cycle(copy)]
pub fn copy_pods(alloc: Global, pods: &[Pod]) -> Result<Items<Pod>, Memory>
    ensures { IfOk result (λ all. all ≡ pods.now) }
{
    let mut all = Items::new(alloc);
    for pod in pods {
        all.push(pod.copy(alloc)?)?;
    }
    Ok(all)
}

#[cycle(copy)]
fn copy_props(alloc: Global, props: &[Prop]) -> Result<Items<Prop>, Memory>
    ensures { IfOk result (λ all. all ≡ props.now) }
{
    let mut all = Items::new(alloc);
    for prop in props {
        all.push(Prop {
            key: prop.key,
            flags: prop.flags,
            value: prop.value.copy(alloc)?,
        })?;
    }
    Ok(all)
}

#[cycle(copy)]
fn copy_controls(alloc: Global, controls: &[Control]) -> Result<Items<Control>, Memory>
    ensures { IfOk result (λ all. all ≡ controls.now) }
{
    let mut all = Items::new(alloc);
    for control in controls {
        all.push(Control {
            offset: control.offset,
            kind: control.kind,
            value: control.value.copy(alloc)?,
        })?;
    }
    Ok(all)
}
