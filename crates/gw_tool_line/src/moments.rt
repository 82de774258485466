//! The moment at which a log began, as words say it.

ghost use Rattle.std.specs.Prelude.{option_map, MatchResult};
ghost use Rattle.gw_tool_line.specs.CommandLine.{IsNoStart, IsStart};

use gw_command_line::options::WordsFault;
use gw_log_words::Moment;

/// The moment that this text says, or none if there is none. `CommandLine` for another text.
pub fn start_of(text: Option<&str>) -> Result<Option<Moment>, WordsFault>
    ensures { let given = option_map (λ t. t.now) text.entry in
        MatchResult result (IsStart given) (IsNoStart given) }
{
    let Some(text) = text else {
        return Ok(None);
    };
    match Moment::parse(text) {
        Some(start) => Ok(Some(start)),
        None => Err(WordsFault::CommandLine),
    }
}
