//! What of a text a log lacks.

ghost use Rattle.std.specs.Prelude.{◌≡◌, ◌≤◌, ◌++◌, [], ℕ, List, length, take, drop, true};
ghost use Rattle.std.specs.Io.KnownBytes.{Appends};

use gw_script::OctetSink;

/// Writes a text until all of it is written or a write fails, and answers how many of its octets are written.
fn write_front<L: OctetSink>(text: &[u8], log: &mut L) -> usize
    ensures most { result ≤ length text.now }
    ensures written { Appends (L.held log.old) (L.held log.new) (take result text.now) }
    ensures sure { L.NeverFails log.old → result ≡ length text.now }
    ensures lasting { L.NeverFails log.old → L.NeverFails log.new }
{
    let mut written = 0;
    while written < text.len() {
        match log.write_octets(&text[written..]) {
            Ok(count) => written += count,
            Err(_) => return written,
        }
    }
    written
}

/// Lets so many octets of the front of a text go.
fn drop_front(text: &mut Vec<u8>, count: usize)
    requires { count ≤ length text.old.items }
    ensures { text.new.items ≡ drop count text.old.items }
{
    if count == 0 {
        return;
    }
    text.drain(..count);
}

/// Writes a text to a log until all of it is written or a write fails. What the log lacks of it is left of it. Whether that is
/// nothing.
pub fn write_out<L: OctetSink>(text: &mut Vec<u8>, log: &mut L) -> bool
    ensures parts { (front : List ℕ) × (text.old.items ≡ front ++ text.new.items)
        × Appends (L.held log.old) (L.held log.new) front }
    ensures all { result ≡ true → text.new.items ≡ [] }
    ensures shorter { length text.new.items ≤ length text.old.items }
    ensures sure { L.NeverFails log.old → result ≡ true }
    ensures lasting { L.NeverFails log.old → L.NeverFails log.new }
{
    let written = write_front(text, log);
    drop_front(text, written);
    text.is_empty()
}
