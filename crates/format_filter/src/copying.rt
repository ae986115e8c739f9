//! Equal choices, fields and formats in memory of their own.
ghost use Rattle.std.specs.Prelude.{◌≡◌, IfOk};

use crate::choice::Choice;
use crate::format::{Field, Format};
use pod_codec::copy_pods;
use pw_lists::{Items, Memory};
use std::alloc::Global;

impl Choice {
    /// An equal choice.
    pub fn copy(&self, alloc: Global) -> Result<Choice, Memory>
        ensures { IfOk result (λ choice. choice ≡ self.now) }
    {
        match self {
            Choice::Only(value) => Ok(Choice::Only(value.copy(alloc)?)),
            Choice::Enum { pick, alts } => Ok(Choice::Enum {
                pick: pick.copy(alloc)?,
                alts: copy_pods(alloc, alts.as_slice())?,
            }),
            Choice::Range {
                wide,
                pick,
                min,
                max,
            } => Ok(Choice::Range {
                wide: *wide,
                pick: *pick,
                min: *min,
                max: *max,
            }),
            Choice::Step {
                wide,
                pick,
                min,
                max,
                step,
            } => Ok(Choice::Step {
                wide: *wide,
                pick: *pick,
                min: *min,
                max: *max,
                step: *step,
            }),
        }
    }
}

impl Field {
    /// An equal field.
    pub fn copy(&self, alloc: Global) -> Result<Field, Memory>
        ensures { IfOk result (λ field. field ≡ self.now) }
    {
        Ok(Field {
            key: self.key,
            flags: self.flags,
            choice: self.choice.copy(alloc)?,
        })
    }
}

/// Equal fields.
fn copy_fields(alloc: Global, fields: &[Field]) -> Result<Items<Field>, Memory>
    ensures { IfOk result (λ all. all ≡ fields.now) }
{
    let mut all = Items::new(alloc);
    for field in fields {
        all.push(field.copy(alloc)?)?;
    }
    Ok(all)
}

impl Format {
    /// An equal format.
    pub fn copy(&self, alloc: Global) -> Result<Format, Memory>
        ensures { IfOk result (λ format. format ≡ self.now) }
    {
        Ok(Format {
            object: self.object,
            id: self.id,
            fields: copy_fields(alloc, self.fields.as_slice())?,
        })
    }
}
