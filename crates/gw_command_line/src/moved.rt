//! Commands that were this program's, and are those of `bacgwctl` now.

/// Their names.
const MOVED: [&str; 8] = [
    "why", "report", "log", "compare", "state", "suggest", "reload", "objects",
];

/// The command of `bacgwctl` that these words call, the program's name first, if they were words of this program.
pub fn moved_command(words: &[String]) -> Option<&str> {
    let command = words.get(1)?.as_str();
    if MOVED.contains(&command) {
        return Some(command);
    }
    if command == "check" {
        moved_option(words)
    } else {
        None
    }
}

/// The command that does what an option of `check` did.
fn moved_option(words: &[String]) -> Option<&'static str> {
    for word in words {
        match word.as_str() {
            "--explain" => return Some("explain"),
            "--lint" => return Some("lint"),
            "--migrate" => return Some("migrate"),
            "--json" => return Some("check --json"),
            _ => {}
        }
    }
    None
}
