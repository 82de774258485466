//! Why a slot isn't changed.
use thiserror::Error;

/// Why a slot isn't changed.
#[derive(Clone, Copy, Debug, Error)]
pub enum PriorityFault {
    /// 1: the priority is 6, which clause 19.2.3 keeps for minimum on and off times. That nobody
    /// may command or relinquish there is this project's own rule.
    #[error("priority 6 is reserved")]
    Reserved,
}

/// A command that was refused, with the value that was to be commanded.
#[derive(Drop)]
pub struct RefusedCommand<T> {
    /// Why it was refused.
    pub fault: PriorityFault,
    /// The value, handed back.
    pub value: T,
}
