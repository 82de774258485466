//! What a command is asked for by its options.

/// What is compared before a reload.
#[derive(Drop)]
pub struct Shown {
    /// The file of the configuration that the running gateway has.
    pub old: String,
    /// How many lines are printed at most, or of each group.
    pub most: u64,
}
