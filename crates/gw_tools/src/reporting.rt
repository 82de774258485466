//! A page that shows a configuration and a log.

ghost use Rattle.std.specs.Prelude.{option_map, string_bytes};
ghost use Rattle.gw_ending.specs.reading.Files.{result_map};
ghost use Rattle.gw_tools.specs.Reporting.{IsPageAlone, IsPageOf, IsPageWith};
ghost use Rattle.gw_tools.specs.Saying.{SaysMade, SaysOf};

use crate::placed::Placed;
use gw_ending::Fault;
use gw_ending::reading::{ConfigFiles, Said};
use gw_report::{ReportFault, report, report_with_log};
use gw_script::OctetSource;
use std::alloc::{AllocError, Global};

/// The page of a configuration, and of the log of this name if there is one. Faults: `LogUnreadable` if it can't be
/// opened, `Read` and `Memory`.
fn make_page<F: ConfigFiles>(
    alloc: Global,
    files: &F,
    placed: &Placed,
    log: &Option<String>,
) -> Result<Vec<u8>, Fault>
    ensures { IsPageOf (F.ReadsLog files.now) (option_map string_bytes log.now) placed.now
        (result_map (λ octets. octets.items) result) }
{
    match log {
        Some(name) => make_page_with(alloc, placed, files.open_log(name)),
        None => make_page_alone(alloc, placed),
    }
}

fn make_page_alone(alloc: Global, placed: &Placed) -> Result<Vec<u8>, Fault>
    ensures { IsPageAlone placed.now (result_map (λ octets. octets.items) result) }
{
    match report(alloc, &placed.config, &placed.lines) {
        Ok(page) => Ok(page),
        Err(AllocError) => Err(Fault::Memory),
    }
}

/// The page of a configuration and of a log that was opened, if it was.
fn make_page_with<L: OctetSource + Drop>(
    alloc: Global,
    placed: &Placed,
    opened: Result<L, Fault>,
) -> Result<Vec<u8>, Fault>
    ensures { IsPageWith placed.now (result_map L.left opened) (result_map (λ octets. octets.items) result) }
{
    let mut log = opened?;
    match report_with_log(alloc, &placed.config, &placed.lines, &mut log) {
        Ok(page) => Ok(page),
        Err(ReportFault::Read) => Err(Fault::Read),
        Err(ReportFault::Memory) => Err(Fault::Memory),
    }
}

/// What `report` says of the configuration that was read. Faults: why there is none, and then those of the page.
pub fn say_page<F: ConfigFiles>(
    alloc: Global,
    files: &F,
    placed: Result<Placed, Fault>,
    log: &Option<String>,
) -> Result<Said, Fault>
    ensures { SaysOf (λ p. SaysMade (IsPageOf (F.ReadsLog files.now) (option_map string_bytes log.now) p)) placed result }
{
    let placed = placed?;
    let page = make_page(alloc, files, &placed, log)?;
    Ok(Said::well(page))
}
