//! Where the fault of a configuration is, reported before the line of the fault.

ghost use Rattle.std.specs.Prelude.{◌≡◌, ◌⊎◌, ◌++◌, [], codes, IfOk};
ghost use Rattle.std.specs.Io.KnownBytes.{Appends};
ghost use Rattle.gw_configuration.specs.Shown.{shown};
ghost use Rattle.gw_ending.specs.reading.Places.{IsPlaceIn, PlaceText, ReportsPlace};

use crate::reading::files::ConfigFiles;
use crate::reading::printing::explanation;
use gw_configuration::{ConfigFault, put_shown};
use gw_notices::write_note;
use gw_script::OctetSink;
use std::alloc::{AllocError, Global};

/// Reports where the fault of the configuration in the file of this name is: the file's name, and the line by which `check` explains
/// the fault. The file is read once more for it. A pipe gets no line, nor does a text that has another fault by now.
///
/// ```text
/// site.toml: rule 1 "write-lock": operation: item 1: "wirte" is none of cast, ..
/// ```
pub fn report_place<F: ConfigFiles, E: OctetSink>(
    alloc: Global,
    files: &F,
    name: &str,
    fault: ConfigFault,
    errors: &mut E,
)
    ensures place { ReportsPlace (F.Reads files.now) name.now fault
        (λ place. E.NeverFails errors.old → Appends (E.held errors.old) (E.held errors.new) place) }
    ensures lasts { E.NeverFails errors.old → E.NeverFails errors.new }
{
    write_note(&place_of(alloc, files, name, fault), errors);
}

/// Where the fault of the configuration in the file of this name is, or nothing.
fn place_of<F: ConfigFiles>(alloc: Global, files: &F, name: &str, fault: ConfigFault) -> Vec<u8>
    ensures { PlaceText (F.Reads files.now) name.now fault result.items }
{
    if !files.is_regular(name) {
        return Vec::new(alloc);
    }
    match files.read(alloc, name) {
        Ok(text) => place_in(alloc, name, &text, fault),
        Err(_) => Vec::new(alloc),
    }
}

/// Where this fault of a text is, which the file of this name has, or nothing.
fn place_in(alloc: Global, name: &str, text: &[u8], fault: ConfigFault) -> Vec<u8>
    ensures { (result.items ≡ []) ⊎ IsPlaceIn name.now text.now fault result.items }
{
    let note = explanation(alloc, text, fault);
    if note.is_empty() {
        return note;
    }
    match noted(alloc, name, &note) {
        Ok(place) => place,
        Err(_) => Vec::new(alloc),
    }
}

/// A note after the name of a file.
fn noted(alloc: Global, name: &str, note: &[u8]) -> Result<Vec<u8>, AllocError>
    ensures { IfOk result (λ place. place.items ≡ shown name.now ++ (codes ": " ++ note.now)) }
{
    let mut place = Vec::new(alloc);
    put_shown(&mut place, name.as_bytes())?;
    place.extend_from_slice(b": ")?;
    place.extend_from_slice(note)?;
    Ok(place)
}
