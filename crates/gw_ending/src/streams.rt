//! The standard streams of a program.
use std::io::{BufWriter, Write};

/// The standard streams of a program.
#[derive(Drop)]
pub struct Streams<R, W: Write + Drop, E> {
    /// Standard input.
    pub input: R,
    /// Standard output.
    pub output: BufWriter<W>,
    /// Standard error.
    pub errors: E,
}
