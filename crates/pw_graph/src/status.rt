//! The statuses of a node and of an io area, with their numbers.
ghost use Rattle.std.specs.Prelude.{◌≡◌, ℕ, ◌<◌, ◌≢◌, MatchOption};

/// The status of a node in a cycle.
#[derive(Clone, Copy, PartialEq, Eq, Drop)]
pub enum ActivationStatus {
    /// It waits for its dependencies.
    NotTriggered,
    /// All its dependencies are done.
    Triggered,
    /// A loop has taken it.
    Awake,
    Finished,
}

impl ActivationStatus {
    ghost use Rattle.pw_graph.specs.Words.{status_number};

    /// Its number in a status word, from 0 to 3.
    pub fn number(self) -> u32
        ensures { result ≡ status_number self }
    {
        match self {
            ActivationStatus::NotTriggered => 0,
            ActivationStatus::Triggered => 1,
            ActivationStatus::Awake => 2,
            ActivationStatus::Finished => 3,
        }
    }

    /// The status of this number, if there is one.
    pub fn from_number(number: u32) -> Option<ActivationStatus>
        ensures { MatchOption result (3 < number) (λ status. status_number status ≡ number) }
    {
        match number {
            0 => Some(ActivationStatus::NotTriggered),
            1 => Some(ActivationStatus::Triggered),
            2 => Some(ActivationStatus::Awake),
            3 => Some(ActivationStatus::Finished),
            _ => None,
        }
    }
}

/// Whose turn an io area says it is: the two values of `spa_io_buffers` that are stored.
#[derive(Clone, Copy, PartialEq, Eq, Drop)]
pub enum AreaStatus {
    /// `SPA_STATUS_NEED_DATA`
    NeedData,
    /// `SPA_STATUS_HAVE_DATA`
    HaveData,
}

impl AreaStatus {
    ghost use Rattle.std.specs.Prelude.{◌⊎◌};
    ghost use Rattle.pw_graph.specs.Words.{area_status_number};

    /// Its number in an io word, 1 or 2.
    pub fn number(self) -> u32
        ensures { result ≡ area_status_number self }
    {
        match self {
            AreaStatus::NeedData => 1,
            AreaStatus::HaveData => 2,
        }
    }

    /// The status of this number, if there is one.
    pub fn from_number(number: u32) -> Option<AreaStatus>
        ensures { MatchOption result ((number ≢ 1) × (number ≢ 2))
            (λ status. area_status_number status ≡ number) }
    {
        match number {
            1 => Some(AreaStatus::NeedData),
            2 => Some(AreaStatus::HaveData),
            _ => None,
        }
    }
}
