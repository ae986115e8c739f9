//! The one place in which a thread is asked for.
ghost use Rattle.std.specs.Prelude.{◌≡◌, IfOk, IfErr, false};

use crate::starts::Starts;
use std::thread::{Promise, PromisedHandle, Scope, SpawnError, Threads};

/// Says that a thread for the member of a number was asked for, and refused. No other module makes
/// one.
#[derive(Drop)]
pub(crate) struct Refusal {
    number: u32,
}

/// Asks for a thread, once, for the member of a number. Where `starts` refuses it, what was to run
/// comes back as from the system, by the same value.
pub(crate) fn launch<
    's,
    E,
    R: Threads,
    S: Starts,
    P: Promise<T> + Drop,
    F: FnOnce() -> T + Send + 's,
    T: Send + Drop + 's,
>(
    rt: &R,
    scope: &Scope<'s, E>,
    starts: &S,
    number: u32,
    promise: P,
    f: F,
) -> Result<PromisedHandle<T, P>, (Refusal, F)>
    requires runs { F.pre f }
    requires keeps { (r : T) → F.post f r → P.kept_by promise r }
    ensures asked { IfOk result (λ _. S.refused starts.now number ≡ false) }
    ensures ok { IfOk result (λ h. h.promise ≡ promise) }
    ensures err { IfErr result (λ e. (e.0.number ≡ number) × (e.1 ≡ f)) }
{
    let _ = rt;
    let answer = if starts.refuses(number) {
        Err(SpawnError { value: f })
    } else {
        scope.spawn_with(promise, f)
    };
    match answer {
        Ok(handle) => Ok(handle),
        Err(back) => Err((Refusal { number }, back.value)),
    }
}
