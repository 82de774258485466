//! Laws of the lines. The functions change nothing and answer nothing: their contracts are the laws.

ghost use Rattle.std.specs.Prelude.{◌<◌, ◌^◌, IfSome, IsTrue};
ghost use Rattle.std.specs.Str.{IsUtf8};
ghost use Rattle.gw_addr.specs.Reading.{AreOctets};
ghost use Rattle.gw_addr.specs.Text.{Lacks};
ghost use Rattle.gw_rules.specs.Name.{is_name};
ghost use Rattle.gw_audit.specs.Entry.{IsShowable};
ghost use Rattle.gw_audit.specs.Laws.{EndsOnce, IsDenial, IsKept, IsOneLine, NamesOneDenial, StaysShort};
ghost use Rattle.gw_audit.specs.Line.{line_text};

use crate::denial::Denial;
use gw_rules::RuleName;

/// A line names one denial, so a log can be searched: two denials with one line are the same in each
/// field that it shows. And a line ends with its line feed, of which it has one. The line of an ask
/// without a sender is the one that the formats 1 and 2 of a policy have.
pub fn lines()
    ensures one { NamesOneDenial }
    ensures ended { EndsOnce }
    ensures short { StaysShort }
{}

/// The numbers of each denial fit their types, and its rule has a name, so those laws hold of every
/// one; and its line is read.
pub fn fits(denial: &Denial)
    ensures kept { IsKept denial.now }
    ensures numbers { IsDenial denial.now }
    ensures shown { IsShowable denial.now }
{
    let ask = &denial.ask;
    number(denial.number);
    number(denial.tick);
    port(denial.port);
    let _network = denial.source.net.get();
    octets(denial.source.mac.as_slice());
    name(&denial.rule);
    field(ask.operation);
    field(ask.port);
    field(ask.source_network);
    field(ask.source_key);
    field(ask.destination_network);
    field(ask.service);
    field(ask.object_type);
    field(ask.instance);
    field(ask.property);
    field(ask.priority);
    field(ask.sender);
    field(ask.station);
}

/// The line of a denial has one line feed, at its end.
#[tactic(auto, using(crate::proofs::LineLemmas::ends_once))]
pub fn line(denial: &Denial)
    ensures { IsOneLine (line_text denial.now) }
{
    fits(denial);
}

/// A number fits 64 bits.
fn number(number: u64)
    ensures { number < 2 ^ 64 }
{}

/// A port's number fits 8 bits.
fn port(port: u8)
    ensures { port < 2 ^ 8 }
{}

/// Octets lent are octets.
fn octets(octets: &[u8])
    ensures { AreOctets octets.now }
{
    let _len = octets.len();
}

/// The name of a rule has the shape of one, and so no space.
fn name(rule: &RuleName)
    ensures shape { IsTrue (is_name rule.now) }
    ensures spaceless { Lacks 32 rule.now }
    ensures text { IsUtf8 rule.now }
{
    let _text = rule.as_str();
}

/// A field that is there fits 64 bits.
fn field(value: Option<u64>)
    ensures { IfSome value (λ n. n < 2 ^ 64) }
{
    if let Some(value) = value {
        number(value);
    }
}
