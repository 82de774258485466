//! Files in memory.

ghost use Rattle.std.specs.Prelude.{◌≡◌, Some, IfOk};

use gw_cases::MemSource;
use gw_ending::Fault;
use gw_ending::reading::ConfigFiles;
use gw_system::Obstacle;
use std::alloc::Global;

/// What the name of a file begins with that can't be read; that of a log or a state is just this.
pub const UNREADABLE: &str = "unreadable";

/// Files in memory, all of the same text.
#[derive(Drop)]
pub struct MemFiles<'a> {
    /// The text.
    pub text: &'a str,
}

impl<'a> ConfigFiles for MemFiles<'a> {
    type Log = MemSource<'a>;

    ghost ReadsLog = { λ files _ log. IfOk log (λ left. left ≡ Some files.text.now) };

    fn open_log(&self, name: &str) -> Result<MemSource<'a>, Fault> {
        if name == UNREADABLE {
            return Err(Fault::LogUnreadable(Obstacle::NotPermitted));
        }
        Ok(MemSource::new(self.text.as_bytes(), false))
    }

    ghost Reads = { λ files _ read. IfOk read (λ octets. octets ≡ files.text.now) };

    fn read(&self, alloc: Global, name: &str) -> Result<Vec<u8>, Fault> {
        if name.starts_with(UNREADABLE) {
            return Err(Fault::Unreadable(Obstacle::Absent));
        }
        Ok(Vec::from_slice(alloc, self.text.as_bytes())?)
    }

    fn is_regular(&self, name: &str) -> bool {
        !name.starts_with(UNREADABLE)
    }

    ghost ReadsState = { λ files _ read. IfOk read (λ octets. octets ≡ files.text.now) };

    fn read_state(&self, alloc: Global, name: &str) -> Result<Vec<u8>, Fault> {
        if name == UNREADABLE {
            return Err(Fault::StateUnreadable(Obstacle::Folder));
        }
        Ok(Vec::from_slice(alloc, self.text.as_bytes())?)
    }
}
