//! A script of events, played under a configuration.

ghost use Rattle.std.specs.Prelude.{◌≡◌, [], OnOk};
ghost use Rattle.std.specs.Io.Buffered.{writer_buffer, writer_contents};
ghost use Rattle.gw_script.specs.Known.{OnKnown};
ghost use Rattle.gw_shell.specs.Replay.{Plays, first_fault, outcome_of};

use gw_configuration::Config;
use gw_ending::Fault;
use gw_replay::RunFault;
use gw_script::{LineFlaw, OctetSource};
use std::alloc::Global;
use std::io::{BufWriter, Write};

/// The outcome of a run, also with what is wrong with a line, where that is known.
fn outcome_of(flaw: Option<LineFlaw>, run: Result<(), RunFault>) -> Result<(), Fault>
    ensures { result ≡ outcome_of flaw run }
{
    match (flaw, run) {
        (_, Ok(())) => Ok(()),
        (Some(flaw), Err(RunFault::Line(number))) => Err(Fault::FlawedLine(number, flaw)),
        (_, Err(fault)) => Err(Fault::from(fault)),
    }
}

/// The first fault of a run and of the flush after it.
fn first_fault(run: Result<(), Fault>, is_flushed: bool) -> Result<(), Fault>
    ensures { result ≡ first_fault run is_flushed }
{
    run?;
    if is_flushed {
        Ok(())
    } else {
        Err(Fault::Write)
    }
}

/// Plays the script that `reader` has left, and reports each event; if it explains, also its asks,
/// and what is wrong with a line that is no event. Faults: those of the run.
fn play<R: OctetSource, W: Write + Drop>(
    alloc: Global,
    explains: bool,
    config: Config,
    reader: &mut R,
    writer: &mut BufWriter<W>,
) -> Result<(), Fault>
    ensures { OnKnown (R.left reader.old) (writer_contents W.contents writer.old)
        (writer_contents W.contents writer.new)
        (λ script before. Plays explains config script before result) }
{
    if explains {
        let mut flaw = LineFlaw::Form;
        let run = gw_replay::replay_explaining(alloc, config, reader, writer, &mut flaw);
        outcome_of(Some(flaw), run)
    } else {
        outcome_of(None, gw_replay::replay(alloc, config, reader, writer))
    }
}

/// Plays the script that `reader` has left under this configuration, and reports each event; if it explains,
/// also its asks, and what is wrong with a line that is no event. What was written is flushed at every outcome.
/// Faults: those of the run, and `Write` also if the flush alone fails.
pub fn replay<R: OctetSource, W: Write + Drop>(
    alloc: Global,
    explains: bool,
    config: Config,
    reader: &mut R,
    writer: &mut BufWriter<W>,
) -> Result<(), Fault>
    ensures plays { OnKnown (R.left reader.old) (writer_contents W.contents writer.old)
        (writer_contents W.contents writer.new)
        (λ script before. Plays explains config script before result) }
    ensures flushed { OnOk result (writer_buffer writer.new ≡ []) }
{
    let run = play(alloc, explains, config, reader, writer);
    let is_flushed = writer.flush().is_ok();
    first_fault(run, is_flushed)
}
