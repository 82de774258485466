//! The parts of a text.

ghost use Rattle.std.specs.Prelude.{◌≡◌, ◌<◌, option_map};
ghost use Rattle.gw_verdicts.specs.questions.Read.{parted};

/// What is in front of the first such character, and what comes after it.
pub fn parted(c: char, text: &str) -> Option<(&str, &str)>
    requires { c < 128 }
    ensures { option_map (λ x. (x.0.now, x.1.now)) result ≡ parted c text.now }
{
    text.split_once(c)
}
