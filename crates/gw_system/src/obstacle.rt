//! Why a file can't be read.

ghost use Rattle.std.specs.Prelude.{◌≡◌, ◌≢◌};
ghost use Rattle.gw_system.specs.Obstacle.{obstacle_words};
ghost use Rattle.gw_system.specs.declared.obstacle.Obstacle.TheVariants.{Absent, Folder, NotPermitted, Other};

use std::io::ErrorKind;

/// Why a file can't be read.
#[derive(Clone, Copy)]
pub enum Obstacle {
    /// There is none of its name.
    Absent,
    /// The system doesn't permit it.
    NotPermitted,
    /// It is a folder.
    Folder,
    /// What it holds isn't the text that was checked before.
    Changed,
    /// Another error of the system, another kind of file, or one that is too long.
    Other,
}

impl Obstacle {
    /// The obstacle by what the system reports.
    pub fn of(kind: ErrorKind) -> Obstacle
        ensures absent { kind ≡ ErrorKind.NotFound → result ≡ Absent }
        ensures not_permitted { kind ≡ ErrorKind.PermissionDenied → result ≡ NotPermitted }
        ensures folder { kind ≡ ErrorKind.IsADirectory → result ≡ Folder }
        ensures other { kind ≢ ErrorKind.NotFound → kind ≢ ErrorKind.PermissionDenied
            → kind ≢ ErrorKind.IsADirectory → result ≡ Other }
    {
        match kind {
            ErrorKind::NotFound => Obstacle::Absent,
            ErrorKind::PermissionDenied => Obstacle::NotPermitted,
            ErrorKind::IsADirectory => Obstacle::Folder,
            _ => Obstacle::Other,
        }
    }
}

/// Why a file can't be read, in words.
pub fn obstacle_words(why: Obstacle) -> &'static str
    ensures { result.now ≡ obstacle_words why }
{
    match why {
        Obstacle::Absent => "no such file",
        Obstacle::NotPermitted => "permission denied",
        Obstacle::Folder => "is a directory",
        Obstacle::Changed => "it isn't the text that was checked",
        Obstacle::Other => "it can't be read",
    }
}
