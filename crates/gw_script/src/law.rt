//! Laws of scripts.

ghost use Rattle.std.specs.Prelude.{◌≡◌, ◌≤◌, ◌++◌, ◌∷◌, ℕ, List, [], length};
ghost use Rattle.std.specs.List.{AllByRecursion, flat_map};
ghost use Rattle.gw_script.specs.Event.{Event};
ghost use Rattle.gw_script.specs.Flaw.{OneFlaw};
ghost use Rattle.gw_script.specs.Script.{AreLines, IsLine, lines_of};
ghost use Rattle.gw_addr.specs.Text.{Lacks};

use crate::line::MAX_DATAGRAM;
use crate::reader::MAX_LINE;

/// The limits are 4096 octets of a line and 2048 of a datagram.
pub fn script_limits()
    ensures line { MAX_LINE ≡ 4096 }
    ensures datagram { MAX_DATAGRAM ≡ 2048 }
{}

/// What holds of all scripts: a line writes one event at most, so the events of a script are the only ones; the lines that end at a
/// line feed are the lines of the text that they make, and a last line may lack its line feed; and a line that writes none has one
/// flaw.
pub fn script_laws()
    ensures event { (ports : ℕ) (line : List ℕ) (e f : Event) → IsLine ports line e →
        IsLine ports line f → e ≡ f }
    ensures events { (ports : ℕ) (lines : List (List ℕ)) (events others : List Event) →
        AreLines ports lines events → AreLines ports lines others → events ≡ others }
    ensures ended { (lines : List (List ℕ)) → AllByRecursion (Lacks 10) lines →
        lines_of (flat_map (λ line. line ++ 10 ∷ []) lines) ≡ lines }
    ensures last { (lines : List (List ℕ)) (last : List ℕ) → AllByRecursion (Lacks 10) lines →
        Lacks 10 last → 1 ≤ length last →
        lines_of (flat_map (λ line. line ++ 10 ∷ []) lines ++ last) ≡ lines ++ last ∷ [] }
    ensures flaw { OneFlaw }
{}
