//! What a kept state holds, and what of it a configuration takes over, in words.

ghost use Rattle.std.specs.Prelude.{◌≡◌, IfOk};
ghost use Rattle.gw_state_words.specs.Words.{state_words};
ghost use Rattle.gw_ending.specs.reading.Files.{result_map};
ghost use Rattle.gw_tools.specs.Kept.{IsSaidOf, IsSaidOfText};
ghost use Rattle.gw_tools.specs.Saying.{SaysMade, SaysOf};

use gw_configuration::Config;
use gw_ending::Fault;
use gw_ending::reading::Said;
use gw_state::Saved;
use gw_state_text::read_state;
use gw_state_words::put_state_words;
use std::alloc::{AllocError, Global};

/// What `state` says of a text that was read, under the configuration that was read. Faults: why there is no configuration, and then
/// those of the words.
pub fn say_state(
    alloc: Global,
    config: Result<Config, Fault>,
    text: &Result<Vec<u8>, Fault>,
) -> Result<Said, Fault>
    ensures { SaysOf (λ c. SaysMade (IsSaidOfText c (result_map (λ octets. octets.items) text.now))) config result }
{
    let config = config?;
    let words = words_of_text(alloc, &config, text)?;
    Ok(Said::well(words))
}

/// What the text of a state holds, and what of it this configuration takes over. Faults: those of reading; `State`
/// with the line at which the text is none of a state; and `Memory`.
fn words_of_text(
    alloc: Global,
    config: &Config,
    text: &Result<Vec<u8>, Fault>,
) -> Result<Vec<u8>, Fault>
    ensures { IsSaidOfText config.now (result_map (λ octets. octets.items) text.now)
        (result_map (λ octets. octets.items) result) }
{
    match text {
        Ok(text) => words_of_state(alloc, config, text),
        Err(fault) => Err(*fault),
    }
}

fn words_of_state(alloc: Global, config: &Config, text: &[u8]) -> Result<Vec<u8>, Fault>
    ensures { IsSaidOf config.now text.now (result_map (λ octets. octets.items) result) }
{
    match read_state(alloc, text) {
        Ok(saved) => Ok(make_words(alloc, config, &saved)?),
        Err(fault) => Err(Fault::from(fault)),
    }
}

fn make_words(alloc: Global, config: &Config, saved: &Saved) -> Result<Vec<u8>, AllocError>
    ensures { IfOk result (λ words. words.items ≡ state_words config.now saved.now) }
{
    let mut words = Vec::new(alloc);
    put_state_words(config, saved, &mut words)?;
    Ok(words)
}
