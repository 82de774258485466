//! The files that a call uses, and which two of its options use one file.

ghost use Rattle.std.specs.Prelude.{◌≡◌, ◌++◌, false, codes, find, option_copied, string_bytes, IfOk, OnOk};
ghost use Rattle.std.specs.Option.{option_map};
ghost use Rattle.gw_command_line.specs.options.Files.{clash, clash_line, clash_of, has_clash, option_name, reads, replaces, requests};
ghost use Rattle.gw_command_line.specs.options.Files.{writes};

use std::alloc::{AllocError, Global};
use std::marker::Model;

/// An option that names a file.
#[derive(Clone, Copy)]
pub enum FileOption {
    /// The configuration.
    Config,
    /// The log.
    Log,
    /// What of a gateway outlives it.
    State,
    /// The counts, for a collector of metrics.
    Metrics,
    /// The request to read the configuration again.
    Reload,
    /// The configuration on trial.
    Trial,
    /// What the rules on trial deny.
    TrialLog,
    /// What an audited rule allows.
    Audit,
    /// The configuration before a reload.
    Was,
}

impl FileOption {
    /// Its name, without the dashes.
    pub fn name(self) -> &'static str
        ensures { result.now ≡ option_name self }
    {
        match self {
            FileOption::Config => "config",
            FileOption::Log => "log",
            FileOption::State => "state",
            FileOption::Metrics => "metrics",
            FileOption::Reload => "reload",
            FileOption::Trial => "trial",
            FileOption::TrialLog => "trial-log",
            FileOption::Audit => "audit",
            FileOption::Was => "was",
        }
    }
}

/// A file that a call uses: by which option, under which name, and whether it is written, replaced or taken away.
#[derive(Drop)]
pub struct FileUse {
    option: FileOption,
    name: String,
    is_written: bool,
}

impl Model for FileUse {
    ghost use Rattle.std.specs.Prelude.{string_bytes};
    ghost use Rattle.gw_command_line.specs.options.Files.{FileUse};

    ghost Value = { FileUse };

    ghost view = { λ f. record { option = f.option; name = string_bytes f.name; is_written = f.is_written } };
}

/// The name and the ending, one after the other.
fn name_with(alloc: Global, name: &str, ending: &str) -> Result<String, AllocError>
    ensures { IfOk result (λ text. string_bytes text ≡ name.now ++ ending.now) }
{
    let mut text = String::from_str(alloc, name)?;
    text.push_str(ending)?;
    Ok(text)
}

/// Adds a file that is read, if the option names one.
pub fn add_read(
    alloc: Global,
    option: FileOption,
    file: Option<&str>,
    files: &mut Vec<FileUse>,
) -> Result<(), AllocError>
    ensures { OnOk result (files.new.items ≡ files.old.items ++ reads option (option_map (λ name. name.now) file.entry)) }
{
    if let Some(name) = file {
        files.push(FileUse {
            option,
            name: String::from_str(alloc, name)?,
            is_written: false,
        })?;
    }
    Ok(())
}

/// Adds a file that is written, under the name that the option has, if it has one, and this ending.
pub fn add_written(
    alloc: Global,
    option: FileOption,
    file: Option<&str>,
    ending: &str,
    files: &mut Vec<FileUse>,
) -> Result<(), AllocError>
    ensures { OnOk result (files.new.items ≡ files.old.items ++ writes option (option_map (λ name. name.now) file.entry) ending.now) }
{
    if let Some(name) = file {
        files.push(FileUse {
            option,
            name: name_with(alloc, name, ending)?,
            is_written: true,
        })?;
    }
    Ok(())
}

/// Adds a file that is replaced whole: a new text is written beside it first.
pub fn add_replaced(
    alloc: Global,
    option: FileOption,
    file: Option<&str>,
    files: &mut Vec<FileUse>,
) -> Result<(), AllocError>
    ensures { OnOk result (files.new.items ≡ files.old.items ++ replaces option (option_map (λ name. name.now) file.entry)) }
{
    add_written(alloc, option, file, "", files)?;
    add_written(alloc, option, file, ".new", files)
}

/// Adds the file of a request, and those of its answer beside it.
pub fn add_request(
    alloc: Global,
    option: FileOption,
    file: Option<&str>,
    files: &mut Vec<FileUse>,
) -> Result<(), AllocError>
    ensures { OnOk result (files.new.items ≡ files.old.items ++ requests option (option_map (λ name. name.now) file.entry)) }
{
    add_replaced(alloc, option, file, files)?;
    add_written(alloc, option, file, ".answer", files)?;
    add_written(alloc, option, file, ".answer.new", files)
}

/// Whether two options use one file, which one of the two writes.
fn do_clash(one: &FileUse, other: &FileUse) -> bool
    ensures { result ≡ clash one.now other.now }
{
    (one.is_written || other.is_written)
        && one.name.as_str() == other.name.as_str()
        && one.option.name() != other.option.name()
}

/// The first of these files that clashes with this one.
fn clash_with<'a>(one: &FileUse, files: &'a [FileUse]) -> Option<&'a FileUse>
    ensures { option_copied result ≡ find (clash one.now) files.now }
{
    files.iter().find(|other| do_clash(one, other))
}

/// Whether a file clashes with one of these.
fn has_clash(one: &FileUse, files: &[FileUse]) -> bool
    ensures { result ≡ has_clash files.now one.now }
{
    clash_with(one, files).is_some()
}

/// The first of these files that clashes with one of them.
fn first_clash(files: &[FileUse]) -> Option<&FileUse>
    ensures { option_copied result ≡ find (has_clash files.now) files.now }
{
    files.iter().find(|one| has_clash(one, files))
}

/// The line that says which two options use one file.
fn clash_line(alloc: Global, one: &FileUse, other: &FileUse) -> Result<String, AllocError>
    ensures { IfOk result (λ line. string_bytes line ≡ clash_line one.now other.now) }
{
    let mut line = String::from_str(alloc, "--")?;
    line.push_str(one.option.name())?;
    line.push_str(" and --")?;
    line.push_str(other.option.name())?;
    line.push_str(" use one file: ")?;
    line.push_str(&one.name)?;
    line.push_str("\n")?;
    Ok(line)
}

/// The line that says which two of these files are one, if two options use one that one of the two writes.
pub fn clash_of(alloc: Global, files: &[FileUse]) -> Result<Option<String>, AllocError>
    ensures { IfOk result (λ line. option_map string_bytes line ≡ clash_of files.now) }
{
    let Some(one) = first_clash(files) else {
        return Ok(None);
    };
    match clash_with(one, files) {
        Some(other) => Ok(Some(clash_line(alloc, one, other)?)),
        None => Ok(None),
    }
}
