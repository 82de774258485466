//! A log, put into words.

ghost use Rattle.std.specs.Prelude.{◌≡◌, [], option_map, string_bytes, OnOk};
ghost use Rattle.std.specs.Io.Buffered.{writer_buffer, writer_contents};
ghost use Rattle.gw_script.specs.Known.{OnKnown};
ghost use Rattle.gw_ending.specs.reading.Files.{result_map};
ghost use Rattle.gw_tools.specs.Program.{LeavesOfLog, LeavesOpened};
ghost use Rattle.gw_tools.specs.Translating.{Translates};

use crate::lines::first_lines_fault;
use gw_ending::Fault;
use gw_ending::reading::ConfigFiles;
use gw_log_words::{Moment, translate_log};
use gw_script::OctetSource;
use std::alloc::Global;
use std::io::{BufWriter, Write};

/// Writes in words each line of the log that `reader` has left, after what is in front of its own fields, with the
/// moments of the denials if it is known when the log began. What was written is flushed at every
/// outcome. Faults: those of the lines, and `Write` also if the flush alone fails.
fn translate<R: OctetSource, W: Write + Drop>(
    alloc: Global,
    start: Option<Moment>,
    reader: &mut R,
    writer: &mut BufWriter<W>,
) -> Result<(), Fault>
    ensures translates { OnKnown (R.left reader.old) (writer_contents W.contents writer.old)
        (writer_contents W.contents writer.new) (λ log before. Translates start log before result) }
    ensures flushed { OnOk result (writer_buffer writer.new ≡ []) }
{
    let translating = translate_log(alloc, start, reader, writer);
    let is_flushed = writer.flush().is_ok();
    first_lines_fault(translating, is_flushed)
}

/// Writes in words each line of a log that was opened, if it was.
fn translate_opened<L: OctetSource + Drop, W: Write + Drop>(
    alloc: Global,
    start: Option<Moment>,
    opened: Result<L, Fault>,
    writer: &mut BufWriter<W>,
) -> Result<(), Fault>
    ensures output { LeavesOpened (Translates start) (result_map L.left opened)
        (writer_contents W.contents writer.old) (writer_contents W.contents writer.new) result }
    ensures flush { OnOk result (writer_buffer writer.new ≡ []) }
{
    match opened {
        Ok(mut log) => translate(alloc, start, &mut log, writer),
        Err(fault) => Err(fault),
    }
}

/// What `log` is asked for: the file of the log, if that isn't standard input, and the moment at which it began, if
/// that is known.
#[derive(Drop)]
pub struct Translating<'a> {
    pub file: &'a Option<String>,
    pub start: Option<Moment>,
}

/// Writes in words each line of the log in a file, or of that on standard input. Faults: those of the lines, `Write`, and
/// `LogUnreadable` if there is no such file.
pub fn translate_in<F: ConfigFiles, R: OctetSource, W: Write + Drop>(
    alloc: Global,
    files: &F,
    asked: &Translating<'_>,
    input: &mut R,
    output: &mut BufWriter<W>,
) -> Result<(), Fault>
    ensures output { LeavesOfLog (F.ReadsLog files.now) (Translates asked.now.start)
        (option_map string_bytes asked.now.file.now) (R.left input.old)
        (writer_contents W.contents output.old) (writer_contents W.contents output.new) result }
    ensures flush { OnOk result (writer_buffer output.new ≡ []) }
{
    match asked.file {
        Some(file) => translate_opened(alloc, asked.start, files.open_log(file), output),
        None => translate(alloc, asked.start, input, output),
    }
}
