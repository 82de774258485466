//! Why the program ends without success, and its exit status.

ghost use Rattle.std.specs.Prelude.{◌≡◌, ◌≢◌};
ghost use Rattle.gw_ending.specs.Ending.{IsUnanswered, cause_of, fault_of, fault_of_configuration, fault_of_metrics, fault_of_request};
ghost use Rattle.gw_ending.specs.Ending.{fault_of_state, fault_of_store, fault_of_words, has_line, is_different, of_other, reason_of};
ghost use Rattle.gw_ending.specs.Ending.{status_of, status_of_trial, store_words, trial_reason, trial_words, words_of, fault_of_lines};
ghost use Rattle.gw_ending.specs.declared.fault.Fault.TheVariants.{CommandLine, Memory};

use gw_command_line::options::WordsFault;
use gw_configuration::ConfigFault;
use gw_notices::name_of;
use gw_replay::RunFault;
use gw_script::{LineFlaw, LinesFault};
use gw_state_text::{FaultKind, StateFault};
use gw_system::{Obstacle, obstacle_words};
use gw_watchers::files::TrialFault;
use gw_wire::StoreFault;
use std::alloc::AllocError;
use std::io::ErrorKind;

/// Why a configuration isn't written in format 3.
#[derive(Clone, Copy)]
pub enum MigrationFlaw {
    /// It is of format 3.
    Already,
    /// What was written isn't read as the same configuration.
    Unlike,
}

/// Why the program ends without success.
#[derive(Clone, Copy)]
pub enum Fault {
    /// The words that the program was called with are none that it takes.
    CommandLine,
    /// The file of the configuration can't be read, and why.
    Unreadable(Obstacle),
    /// The file of the configuration that it is compared with can't be read, and why.
    OtherUnreadable(Obstacle),
    /// The file of the log can't be read, and why.
    LogUnreadable(Obstacle),
    /// What the file of the configuration says is none, and why.
    Configuration(ConfigFault),
    /// What the file of the configuration that it is compared with says is none, and why.
    OtherConfiguration(ConfigFault),
    /// The configuration isn't written in format 3, and why.
    Migration(MigrationFlaw),
    /// Line `n` of the script, counted from 1, is no event; or line `n` of the asks is none; or line `n`
    /// of the log is too long.
    Line(u64),
    /// Line `n` of the script, counted from 1, is no event, since it has this flaw.
    FlawedLine(u64, LineFlaw),
    /// A read of standard input failed.
    Read,
    /// A write to standard output failed.
    Write,
    /// The log can't be opened, or a write to it failed.
    Log,
    /// A socket of the port of this number can't be opened; with 1 also what waits, or the clock.
    Socket(u8),
    /// A growth was refused.
    Memory,
    /// The count of ticks or the number of the last denial is at its end.
    CountEnd,
    /// The file of the state can't be read, and why.
    StateUnreadable(Obstacle),
    /// What the file of the state says is none, at this line, and why.
    State(StateFault),
    /// The place of the state can't be opened, and why.
    Store(StoreFault),
    /// The policy that is to be on trial isn't, and why.
    Trial(TrialFault),
    /// The audit can't be opened or read.
    Audit,
    /// The place of the metrics can't be opened, and why.
    Metrics(StoreFault),
    /// The file of a request can't be made, and why.
    Request(StoreFault),
    /// No answer to a request came.
    NoAnswer,
    /// The answer says why the configuration wasn't read again, or the state wasn't kept.
    Refused,
    /// An assertion of the configuration doesn't hold, as its line says.
    Broken,
    /// There are more asks than rules are suggested for.
    TooManyAsks,
    /// There would be more rules than a configuration may have.
    TooManyRules,
    /// The suggested rules aren't read again as they are.
    Unwritable,
    /// Nor are the rules that are in force.
    Unlisted,
    /// Two configurations that were compared decide some ask otherwise, or the comparison isn't finished.
    Different,
    /// Two configurations that were compared decide each ask alike, but differ in other parts.
    OtherParts,
    /// What was asked about isn't allowed.
    NotAllowed,
}

impl Fault {
    /// The fault where the words can't be had: `Memory`, or else a word that is no UTF-8.
    pub fn of_words(kind: ErrorKind) -> Fault
        ensures memory { kind ≡ ErrorKind.OutOfMemory → result ≡ Memory }
        ensures other { kind ≢ ErrorKind.OutOfMemory → result ≡ CommandLine }
    {
        Fault::from(WordsFault::of_words(kind))
    }

    /// The fault if the place of the state can't be opened.
    pub fn of_store(fault: StoreFault) -> Fault
        ensures { result ≡ fault_of_store fault }
    {
        match fault {
            StoreFault::Memory => Fault::Memory,
            _ => Fault::Store(fault),
        }
    }

    /// The fault if the place of the metrics can't be opened.
    pub fn of_metrics(fault: StoreFault) -> Fault
        ensures { result ≡ fault_of_metrics fault }
    {
        match fault {
            StoreFault::Memory => Fault::Memory,
            _ => Fault::Metrics(fault),
        }
    }

    /// The fault if a request can't be made.
    pub fn of_request(fault: StoreFault) -> Fault
        ensures fault { result ≡ fault_of_request fault }
        ensures unanswered { IsUnanswered result }
    {
        match fault {
            StoreFault::Memory => Fault::Memory,
            _ => Fault::Request(fault),
        }
    }

    /// The fault if it is of the configuration that another is compared with.
    pub fn of_other(self) -> Fault
        ensures { result ≡ of_other self }
    {
        match self {
            Fault::Unreadable(why) => Fault::OtherUnreadable(why),
            Fault::Configuration(fault) => Fault::OtherConfiguration(fault),
            _ => self,
        }
    }

    /// The exit status: 2 where what the program was given is wrong, and 1 where what it needs failed.
    pub fn status(self) -> u8
        ensures { result ≡ status_of self }
    {
        match self {
            Fault::Trial(fault) => status_of_trial(fault),
            Fault::CommandLine
            | Fault::Configuration(_)
            | Fault::OtherConfiguration(_)
            | Fault::Migration(_)
            | Fault::Line(_)
            | Fault::FlawedLine(_, _)
            | Fault::State(_)
            | Fault::TooManyAsks
            | Fault::TooManyRules
            | Fault::Unwritable
            | Fault::Unlisted
            | Fault::Broken
            | Fault::Refused => 2,
            Fault::Unreadable(_)
            | Fault::OtherUnreadable(_)
            | Fault::LogUnreadable(_)
            | Fault::Store(_)
            | Fault::Audit
            | Fault::Metrics(_)
            | Fault::Request(_)
            | Fault::NoAnswer
            | Fault::StateUnreadable(_)
            | Fault::Read
            | Fault::Write
            | Fault::Log
            | Fault::Socket(_)
            | Fault::Memory
            | Fault::CountEnd
            | Fault::Different
            | Fault::OtherParts
            | Fault::NotAllowed => 1,
        }
    }

    /// Whether it has a line: not if `compare` found something, if an answer says why it was refused, if an assertion doesn't
    /// hold, or if `ask` said no.
    pub fn has_line(self) -> bool
        ensures { result ≡ has_line self }
    {
        match self {
            Fault::Refused
            | Fault::Broken
            | Fault::Different
            | Fault::OtherParts
            | Fault::NotAllowed => false,
            _ => true,
        }
    }

    /// Whether it is that of a comparison which found something.
    pub fn is_different(self) -> bool
        ensures { result ≡ is_different self }
    {
        match self {
            Fault::Different | Fault::OtherParts => true,
            _ => false,
        }
    }
}

/// The exit status if a policy isn't on trial: 2 if it can't be, and 1 if a file of it can't be had.
fn status_of_trial(fault: TrialFault) -> u8
    ensures { result ≡ status_of_trial fault }
{
    match fault {
        TrialFault::Configuration(_) | TrialFault::Format | TrialFault::Ports => 2,
        TrialFault::Unreadable(_) | TrialFault::Log => 1,
    }
}

/// Why a policy isn't on trial, up to why its file can't be read or what is wrong with its configuration.
pub fn trial_words(fault: TrialFault) -> &'static str
    ensures { result.now ≡ trial_words fault }
{
    match fault {
        TrialFault::Unreadable(_) => "cannot read configuration: ",
        TrialFault::Configuration(_) => "configuration: ",
        TrialFault::Format => "it isn't of the configuration's format",
        TrialFault::Ports => "its ports aren't the configuration's",
        TrialFault::Log => "log failed",
    }
}

/// Why the file of a policy that isn't on trial can't be read, or the fault of its configuration, if that is why.
pub fn trial_reason(fault: TrialFault) -> &'static str
    ensures { result.now ≡ trial_reason fault }
{
    match fault {
        TrialFault::Unreadable(why) => obstacle_words(why),
        TrialFault::Configuration(fault) => name_of(fault),
        _ => "",
    }
}

/// Why a configuration isn't written in format 3.
pub fn reason_of(fault: MigrationFlaw) -> &'static str
    ensures { result.now ≡ reason_of fault }
{
    match fault {
        MigrationFlaw::Already => "it is of format 3",
        MigrationFlaw::Unlike => "it has no text of format 3",
    }
}

/// Why a text is none of a state, by what is wrong with its line.
pub fn cause_of(kind: FaultKind) -> &'static str
    ensures { result.now ≡ cause_of kind }
{
    match kind {
        FaultKind::Version => "another version",
        FaultKind::Line => "no line that may be here",
        FaultKind::Range => "out of range",
        FaultKind::Twice => "comes twice",
        FaultKind::TooMany => "too many",
        FaultKind::Cut => "the text is cut",
        FaultKind::Memory => "out of memory",
    }
}

/// Why a file isn't written.
pub fn store_words(fault: StoreFault) -> &'static str
    ensures { result.now ≡ store_words fault }
{
    match fault {
        StoreFault::NoSpace => "no space",
        StoreFault::NotPermitted => "not permitted",
        StoreFault::ReadOnly => "read-only",
        StoreFault::Memory => "out of memory",
        StoreFault::System => "refused by the system",
        StoreFault::TooMany => "too many changes",
    }
}

/// What is wrong with a line.
pub fn words_of(flaw: LineFlaw) -> &'static str
    ensures { result.now ≡ words_of flaw }
{
    match flaw {
        LineFlaw::Long => "it has more than 4096 octets",
        LineFlaw::CarriageReturn => "it ends with a carriage return",
        LineFlaw::Form => "it is neither tick nor a port, an address and octets",
        LineFlaw::Port => "there is no such port",
        LineFlaw::Address => "after its port there is no address and a space",
        LineFlaw::OddDigits => "its octets have an odd number of digits",
        LineFlaw::Digits => "its octets are no pairs of digits",
    }
}

impl From<WordsFault> for Fault {
    ghost from_gives = { λ words fault. fault ≡ fault_of_words words };

    fn from(fault: WordsFault) -> Fault {
        match fault {
            WordsFault::CommandLine => Fault::CommandLine,
            WordsFault::Memory => Fault::Memory,
        }
    }
}

impl From<ConfigFault> for Fault {
    ghost from_gives = { λ config fault. fault ≡ fault_of_configuration config };

    fn from(fault: ConfigFault) -> Fault {
        match fault {
            ConfigFault::Memory => Fault::Memory,
            _ => Fault::Configuration(fault),
        }
    }
}

impl From<StateFault> for Fault {
    ghost from_gives = { λ state fault. fault ≡ fault_of_state state state.kind };

    fn from(fault: StateFault) -> Fault {
        match fault.kind {
            FaultKind::Memory => Fault::Memory,
            _ => Fault::State(fault),
        }
    }
}

impl From<RunFault> for Fault {
    ghost from_gives = { λ run fault. fault ≡ fault_of run };

    fn from(run: RunFault) -> Fault {
        match run {
            RunFault::Read => Fault::Read,
            RunFault::Line(number) => Fault::Line(number),
            RunFault::Write => Fault::Write,
            RunFault::Memory => Fault::Memory,
            RunFault::CountEnd => Fault::CountEnd,
        }
    }
}

impl From<LinesFault> for Fault {
    ghost from_gives = { λ lines fault. fault ≡ fault_of_lines lines };

    fn from(lines: LinesFault) -> Fault {
        match lines {
            LinesFault::Read => Fault::Read,
            LinesFault::Line(number) => Fault::Line(number),
            LinesFault::Write => Fault::Write,
            LinesFault::Memory => Fault::Memory,
        }
    }
}

impl From<AllocError> for Fault {
    ghost from_gives = { λ _ fault. fault ≡ Memory };

    fn from(_refused: AllocError) -> Fault {
        Fault::Memory
    }
}
