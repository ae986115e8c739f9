//! The fixation of a format.
ghost use Rattle.std.specs.Prelude.{◌≡◌, IfOk, map};
ghost use Rattle.format_filter.specs.CommonFormat.{AreSoundFields, IsSoundFormat};
ghost use Rattle.format_filter.specs.Fixation.{fixed, fixated};

use crate::choice::Choice;
use crate::format::{Field, Format};
use crate::picking::copy_pick;
use pw_lists::{Items, Memory};
use std::alloc::Global;

/// The param id of a format that is taken.
const FORMAT: u32 = 4;

/// Fields with only their picks, without flags.
fn fixed_fields(alloc: Global, fields: &[Field]) -> Result<Items<Field>, Memory>
    requires { AreSoundFields fields.now }
    ensures { IfOk result (λ all. all ≡ map fixed fields.now) }
{
    let mut all = Items::new(alloc);
    for field in fields {
        all.push(Field {
            key: field.key,
            flags: 0,
            choice: Choice::Only(copy_pick(alloc, &field.choice)?),
        })?;
    }
    Ok(all)
}

/// The format in which each choice is only its pick: its id is that of Format, 4, and its flags
/// are 0.
///
/// Public source: PipeWire's documentation, "SPA POD"; `spa/pod/iter.h`, `spa_pod_fixate`.
/// DONT_FIXATE is not obeyed.
pub fn fixate(alloc: Global, format: &Format) -> Result<Format, Memory>
    requires { IsSoundFormat format.now }
    ensures value { IfOk result (λ fixed. fixed ≡ fixated format.now) }
    ensures sound { IfOk result IsSoundFormat }
{
    Ok(Format {
        object: format.object,
        id: FORMAT,
        fields: fixed_fields(alloc, format.fields.as_slice())?,
    })
}
