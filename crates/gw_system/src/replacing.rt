//! A file is replaced whole: its text is written to a file beside it, which then gets its name.

ghost use Rattle.std.specs.Prelude.{◌≡◌, ◌≢◌, ◌++◌, codes, string_bytes, IfOk};
ghost use Rattle.gw_system.specs.Disk.{Leads};
ghost use Rattle.gw_system.specs.Replacing.{IsReplaced, IsShown};
ghost use Rattle.gw_system.specs.internal.Writing.{HasShown, IsNewFile, IsSettled};

use crate::disk::Disk;
use crate::store::{Access, name_with};
use gw_wire::StoreFault;
use std::alloc::{AllocError, Global};

/// The name of a file that is replaced whole, and of the file beside it, where a text is written first.
#[derive(Drop)]
pub struct FileName {
    /// Its name.
    pub name: String,
    /// The name of the file beside it, which has `.new` after its name.
    pub beside: String,
    pub ghost apart: { string_bytes name ≢ string_bytes beside },
}

impl FileName {
    /// The file of this name. The only fault is want of memory.
    pub fn of(alloc: Global, name: &str) -> Result<Self, AllocError>
        ensures name { IfOk result (λ file. string_bytes file.name ≡ name.now) }
        ensures beside { IfOk result (λ file. string_bytes file.beside ≡ name.now ++ codes ".new") }
    {
        Ok(FileName {
            name: name_with(alloc, name, "")?,
            beside: name_with(alloc, name, ".new")?,
        })
    }
}

/// Writes a text to a new file of this name. What had the name is taken away first; a link that gets it then isn't followed.
fn write_new<D: Disk>(
    disk: &mut D,
    name: &str,
    access: Access,
    octets: &[u8],
) -> Result<D::File, StoreFault>
    ensures does { Leads (IsNewFile name.now access octets.now result) (D.changes disk.old) (D.changes disk.new) }
    ensures named { IfOk result (λ file. D.HasName disk.new file name.now) }
{
    disk.remove(name)?;
    let mut file = disk.create(name, access)?;
    disk.write(&mut file, octets)?;
    Ok(file)
}

/// Replaces a file by a text that is on the disk before that, and waits until it is on the disk that it has the name.
fn settle<D: Disk>(
    disk: &mut D,
    file: &FileName,
    access: Access,
    octets: &[u8],
) -> Result<(), StoreFault>
    ensures { Leads (IsSettled (string_bytes file.now.name) (string_bytes file.now.beside) access octets.now result)
        (D.changes disk.old) (D.changes disk.new) }
{
    let written = write_new(disk, &file.beside, access, octets)?;
    disk.sync(&written)?;
    disk.rename(&file.beside, &file.name)?;
    disk.sync_folder(&file.name)
}

/// Replaces a file by a text.
fn show<D: Disk>(
    disk: &mut D,
    file: &FileName,
    access: Access,
    octets: &[u8],
) -> Result<(), StoreFault>
    ensures { Leads (HasShown (string_bytes file.now.name) (string_bytes file.now.beside) access octets.now result)
        (D.changes disk.old) (D.changes disk.new) }
{
    let _written = write_new(disk, &file.beside, access, octets)?;
    disk.rename(&file.beside, &file.name)
}

/// Replaces a file whole by a text. At every moment its name shows the old text or the new one, now and after a crash; once this is
/// done it shows the new one, also after any crash. It fails if a call of the disk does; then the file beside it is taken away.
pub fn replace_file<D: Disk>(
    disk: &mut D,
    file: &FileName,
    access: Access,
    octets: &[u8],
) -> Result<(), StoreFault>
    ensures { Leads (IsReplaced (string_bytes file.now.name) (string_bytes file.now.beside) access octets.now result)
        (D.changes disk.old) (D.changes disk.new) }
{
    match settle(disk, file, access, octets) {
        Ok(()) => Ok(()),
        Err(fault) => {
            let _ = disk.remove(&file.beside);
            Err(fault)
        }
    }
}

/// Replaces a file whole by a text that needn't be on the disk. At every moment its name shows the old text or the new one; a crash may
/// leave any. It fails if a call of the disk does; then the file beside it is taken away.
pub fn show_file<D: Disk>(
    disk: &mut D,
    file: &FileName,
    access: Access,
    octets: &[u8],
) -> Result<(), StoreFault>
    ensures { Leads (IsShown (string_bytes file.now.name) (string_bytes file.now.beside) access octets.now result)
        (D.changes disk.old) (D.changes disk.new) }
{
    match show(disk, file, access, octets) {
        Ok(()) => Ok(()),
        Err(fault) => {
            let _ = disk.remove(&file.beside);
            Err(fault)
        }
    }
}
