//! What is printed, and where the fault of a text is.

ghost use Rattle.std.specs.Prelude.{◌≡◌, ◌⊎◌, ◌++◌, ◌∷◌, [], IfErr, IfOk, IsOk, OnOk, OnErr};
ghost use Rattle.std.specs.Io.Buffered.{writer_buffer, writer_contents};
ghost use Rattle.std.specs.Io.KnownBytes.{Appends};
ghost use Rattle.gw_ending.specs.declared.fault.Fault.TheVariants as fault;
ghost use Rattle.gw_ending.specs.reading.Configured.{FaultNote, IsExplainedBy};
ghost use Rattle.gw_ending.specs.reading.Files.{result_map};
ghost use Rattle.gw_ending.specs.reading.Printing.{AppendsFront, LeavesEnding, LeavesPrinted, LeavesSaid};

use crate::Fault;
use gw_configuration::ConfigFault;
use gw_policy_text::faults::{Explanation, explain};
use gw_script::{OctetSink, write_whole};
use std::alloc::{AllocError, Global};
use std::io::{BufWriter, Write};

/// Writes a text. `Write` where a write fails; then a front of the text is written.
fn write_text<S: OctetSink>(text: &[u8], sink: &mut S) -> Result<(), Fault>
    ensures ok { OnOk result (Appends (S.held sink.old) (S.held sink.new) text.now) }
    ensures front { OnErr result (AppendsFront (S.held sink.old) (S.held sink.new) text.now) }
    ensures fault { IfErr result (λ f. f ≡ fault.Write) }
    ensures sure_writer { S.NeverFails sink.old → IsOk result }
{
    match write_whole(sink, text) {
        Ok(()) => Ok(()),
        Err(_) => Err(Fault::Write),
    }
}

/// Prints octets and flushes them. `Write` where a write or the flush fails; then a front of the text
/// is written.
pub fn print<W: Write + Drop>(text: &[u8], output: &mut BufWriter<W>) -> Result<(), Fault>
    ensures ok { OnOk result
        (Appends (writer_contents W.contents output.old) (writer_contents W.contents output.new)
        text.now) }
    ensures front { OnErr result
        (AppendsFront (writer_contents W.contents output.old)
        (writer_contents W.contents output.new) text.now) }
    ensures fault { IfErr result (λ f. f ≡ fault.Write) }
    ensures flush { OnOk result (writer_buffer output.new ≡ []) }
{
    let Ok(()) = write_text(text, output) else {
        return Err(Fault::Write);
    };
    match output.flush() {
        Ok(()) => Ok(()),
        Err(_) => Err(Fault::Write),
    }
}

/// Prints a text after which the command ends so. `Write` if a write or the flush fails; then a front of the text is written.
pub fn print_ending<W: Write + Drop>(
    text: &[u8],
    ends: Result<(), Fault>,
    output: &mut BufWriter<W>,
) -> Result<(), Fault>
    ensures output { LeavesEnding text.now ends
        (writer_contents W.contents output.old) (writer_contents W.contents output.new) result }
    ensures flush { OnOk result (writer_buffer output.new ≡ []) }
{
    match print(text, output) {
        Ok(()) => ends,
        Err(fault) => Err(fault),
    }
}

/// What a command says, and how it ends.
#[derive(Drop)]
pub struct Said {
    pub text: Vec<u8>,
    /// How it ends once the text is printed.
    pub ends: Result<(), Fault>,
    /// How it ends if the text can't be printed.
    pub unprinted: Fault,
}

impl Said {
    /// A text after which a command ends well.
    pub fn well(text: Vec<u8>) -> Said
        ensures text { result.text ≡ text }
        ensures ends { result.ends ≡ Ok tt }
        ensures unprinted { result.unprinted ≡ fault.Write }
    {
        Said::ending(text, Ok(()))
    }

    /// A text after which a command ends so.
    pub fn ending(text: Vec<u8>, ends: Result<(), Fault>) -> Said
        ensures text { result.text ≡ text }
        ensures ends { result.ends ≡ ends }
        ensures unprinted { result.unprinted ≡ fault.Write }
    {
        Said {
            text,
            ends,
            unprinted: Fault::Write,
        }
    }

    /// What is said of a fault, with which a command ends even if the text can't be printed.
    pub fn of_fault(text: Vec<u8>, fault: Fault) -> Said
        ensures text { result.text ≡ text }
        ensures ends { result.ends ≡ Err fault }
        ensures unprinted { result.unprinted ≡ fault }
    {
        Said {
            text,
            ends: Err(fault),
            unprinted: fault,
        }
    }
}

/// Prints what a command says; if it says nothing, why not is how it ends. If a write or the flush fails, a front of the text is
/// written, and it ends as it says of that.
pub fn print_said<W: Write + Drop>(
    said: Result<Said, Fault>,
    output: &mut BufWriter<W>,
) -> Result<(), Fault>
    ensures output { LeavesSaid said
        (writer_contents W.contents output.old) (writer_contents W.contents output.new) result }
    ensures flush { OnOk result (writer_buffer output.new ≡ []) }
{
    let said = said?;
    match print(&said.text, output) {
        Ok(()) => said.ends,
        Err(_) => Err(said.unprinted),
    }
}

/// Prints a text that was made.
pub fn print_made<W: Write + Drop>(
    made: Result<Vec<u8>, Fault>,
    output: &mut BufWriter<W>,
) -> Result<(), Fault>
    ensures output { LeavesPrinted (result_map (λ octets. octets.items) made)
        (writer_contents W.contents output.old) (writer_contents W.contents output.new) result }
    ensures flush { OnOk result (writer_buffer output.new ≡ []) }
{
    match made {
        Ok(text) => print(&text, output),
        Err(fault) => Err(fault),
    }
}

/// What is said of the fault of a text that was read, where that is asked for: where in the text a fault
/// of the configuration is. It is left out where there is no memory for it.
pub fn fault_note(
    alloc: Global,
    is_asked: bool,
    text: &Result<Vec<u8>, Fault>,
    fault: Fault,
) -> Vec<u8>
    ensures { FaultNote is_asked (result_map (λ octets. octets.items) text.now) fault result.items }
{
    if let (true, Ok(text), Fault::Configuration(fault)) = (is_asked, text, fault) {
        return explanation(alloc, text, fault);
    }
    Vec::new(alloc)
}

/// The line that explains this fault of a text, or nothing where there is none.
pub(crate) fn explanation(alloc: Global, text: &[u8], fault: ConfigFault) -> Vec<u8>
    ensures { (result.items ≡ []) ⊎ IsExplainedBy text.now fault result.items }
{
    let line = match explain(alloc, text, fault) {
        Ok(Some(explanation)) => line_of(alloc, &explanation),
        Ok(None) | Err(_) => Err(AllocError),
    };
    match line {
        Ok(line) => line,
        Err(_) => Vec::new(alloc),
    }
}

/// An explanation with its line feed.
fn line_of(alloc: Global, explanation: &Explanation) -> Result<Vec<u8>, AllocError>
    ensures { IfOk result (λ octets. octets.items ≡ explanation.now ++ 10 ∷ []) }
{
    let mut line = Vec::from_slice(alloc, explanation.as_bytes())?;
    line.push(b'\n')?;
    Ok(line)
}
