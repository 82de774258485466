//! The program `bacgw`: a gateway of BACnet/IP, run from the command line.
//!
//! `main` hands the words, the files, the machine and the streams of the process to `gw_shell`, whose
//! `run` says what the program does.
#![tactic(auto)]

use gw_shell::{Fault, Streams, SystemFiles, SystemHost, end, run};
use std::fs::File;
use std::io::BufWriter;
use std::process::ExitCode;
use std::rt::{Env, Files};
use std::{env, io};

/// How many octets of output are gathered before they are written.
const OUTPUT_OCTETS: usize = 65536;

/// The words that the program was called with, its name first.
fn words(rt: &(impl Env + AllocGlobal)) -> Result<Vec<String>, Fault> {
    match env::args(rt) {
        Ok(words) => Ok(words.collect(rt.alloc())?),
        Err(error) => Err(Fault::of_words(error.kind())),
    }
}

/// Opens /dev/null. It takes the lowest number that is free: that of a standard stream which is
/// closed, where one is.
fn open_null<R: Files>(rt: &R) -> Option<R::File> {
    File::options()
        .read(true)
        .write(true)
        .open(rt, "/dev/null")
        .ok()
}

fn main(rt: HostRuntime) -> ExitCode {
    // As many as there are standard streams. Without them a message might land in the log, if that took
    // the number of a closed stream.
    let _held = [open_null(&rt), open_null(&rt), open_null(&rt)];
    let alloc = rt.alloc();
    let mut errors = rt.stderr();
    let Ok(output) = BufWriter::with_capacity(alloc, OUTPUT_OCTETS, io::writer(&rt)) else {
        return end("bacgw", Err(Fault::Memory), &mut errors);
    };
    let mut streams = Streams {
        input: rt.reader(),
        output,
        errors,
    };
    run(
        alloc,
        words(&rt),
        &SystemFiles { rt: &rt },
        &mut SystemHost { rt: &rt },
        &mut streams,
    )
}
