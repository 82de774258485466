//! Two configurations, compared, and how far that is.

ghost use Rattle.std.specs.Prelude.{◌≡◌, [], ℕ, Bool, List, if◌then◌else◌, length, IfOk, IsOk, OnOk};
ghost use Rattle.std.specs.Io.KnownBytes.{Appends};
ghost use Rattle.gw_ending.specs.declared.fault.Fault.TheVariants as fault;
ghost use Rattle.gw_policy_review.specs.comparison.Comparing.{IsUnderWay};
ghost use Rattle.gw_policy_review.specs.comparison.Comparison.{manner_of};
ghost use Rattle.gw_tools.specs.Comparing.{AreProgress, IsCompared, IsComparedAsText, IsComparedBehind, ReportsProgress};
ghost use Rattle.gw_tools.specs.Comparing.{SaysCompared, outcome_of_comparison, progress_line};
ghost use Rattle.gw_tools.specs.Placed.{IsPlacedIn};
ghost use Rattle.gw_tools.specs.Saying.{SaysOfBoth};

use crate::asserting::put_assertions;
use crate::json::comparison_lines;
use crate::placed::{Placed, placed_in};
use gw_configuration::Config;
use gw_ending::reading::{ConfigFiles, Said};
use gw_ending::{Fault, write_number};
use gw_log_words::{Calendar, Moment};
use gw_policy_review::comparison::{Compared, Comparing, Printing, put_steps};
use gw_script::{OctetSink, WriteFailed};
use std::alloc::{AllocError, Global};

/// How many steps a comparison takes before the time is looked at.
const PORTION: u32 = 256;

/// How many portions a comparison has at most: 65,536 steps, and a last look.
const PORTIONS: u32 = 257;

/// As what a comparison is printed.
#[derive(Clone, Copy)]
pub enum Layout {
    /// As lines of text. A last one says how many steps it took, if that is asked for.
    Text { steps: bool },
    /// As JSON objects. The last one says how many steps it took.
    Json,
}

/// What is printed of a comparison.
#[derive(Clone, Copy)]
pub struct Limits {
    /// How many lines there are at most, or of each group.
    pub most: u64,
    /// As what they are printed.
    pub layout: Layout,
}

/// The text of a comparison, and how the two compare.
#[derive(Drop)]
pub struct Lines {
    pub text: Vec<u8>,
    pub made: Compared,
}

/// Two configurations, each with the lines of its text on which the tables of its rules begin.
#[derive(Drop)]
pub struct Sides<'a> {
    pub old: &'a Placed,
    pub new: &'a Placed,
}

/// Two configurations that were read, each with the lines of its text on which the tables of its rules begin, or why one wasn't.
#[derive(Drop)]
pub struct Both {
    pub old: Result<Placed, Fault>,
    pub new: Result<Placed, Fault>,
}

/// Those of the files of these names.
pub fn both_in<F: ConfigFiles>(alloc: Global, files: &F, old: &str, new: &str) -> Both
    ensures old { IsPlacedIn (F.Reads files.now) old.now result.old }
    ensures new { IsPlacedIn (F.Reads files.now) new.now result.new }
{
    Both {
        old: placed_in(alloc, files, old),
        new: placed_in(alloc, files, new),
    }
}

/// A calendar that is looked at again and again.
#[derive(Drop)]
pub struct Seconds<C> {
    calendar: C,
    shown: Option<Moment>,
    has_begun: bool,
}

/// Whether two looks at a calendar showed the same second.
fn is_same(one: Option<Moment>, two: Option<Moment>) -> bool {
    match (one, two) {
        (Some(one), Some(two)) => one.local == two.local,
        (None, None) => true,
        _ => false,
    }
}

impl<C: Calendar> Seconds<C> {
    /// The seconds from now on.
    pub fn new(mut calendar: C) -> Seconds<C> {
        let shown = calendar.moment();
        Seconds {
            calendar,
            shown,
            has_begun: false,
        }
    }

    /// Whether the calendar shows another second than at the last look. The first one more is left out, since it may
    /// come at once: so a whole second has passed at the next.
    fn has_passed(&mut self) -> bool {
        let now = self.calendar.moment();
        if is_same(now, self.shown) {
            return false;
        }
        let is_due = self.has_begun;
        self.shown = now;
        self.has_begun = true;
        is_due
    }
}

/// Writes how far a comparison is.
fn write_progress<E: OctetSink>(steps: u32, found: usize, errors: &mut E) -> Result<(), WriteFailed>
    ensures ok { OnOk result (Appends (E.held errors.old) (E.held errors.new) (progress_line (steps, found))) }
    ensures sure { E.NeverFails errors.old → IsOk result }
    ensures lasts { E.NeverFails errors.old → E.NeverFails errors.new }
{
    write_number(
        "bacgwctl: compared ",
        u64::from(steps),
        " of 65536 steps, ",
        errors,
    )?;
    write_number("", found as u64, " found\n", errors)
}

/// Reports how far a comparison is.
fn report_progress<E: OctetSink>(steps: u32, found: usize, errors: &mut E)
    ensures said { E.NeverFails errors.old →
        Appends (E.held errors.old) (E.held errors.new) (progress_line (steps, found)) }
    ensures lasts { E.NeverFails errors.old → E.NeverFails errors.new }
{
    let _ = write_progress(steps, found, errors);
}

/// Reports how far a comparison is if a second has passed.
fn report_second<C: Calendar, E: OctetSink>(
    comparing: &Comparing<'_>,
    seconds: &mut Seconds<C>,
    errors: &mut E,
)
    ensures said { (has_passed : Bool) × (E.NeverFails errors.old → Appends (E.held errors.old) (E.held errors.new)
        (if has_passed then progress_line (comparing.now.steps, length comparing.now.found) else [])) }
    ensures lasts { E.NeverFails errors.old → E.NeverFails errors.new }
{
    if seconds.has_passed() {
        report_progress(comparing.steps(), comparing.found(), errors);
    }
}

/// Goes on to the end of a comparison, and reports once a second how far it is.
fn finish<C: Calendar, E: OctetSink>(
    alloc: Global,
    comparing: &mut Comparing<'_>,
    seconds: &mut Seconds<C>,
    errors: &mut E,
) -> Result<(), AllocError>
    ensures old { OnOk result (comparing.new.old_one ≡ comparing.old.old_one) }
    ensures new { OnOk result (comparing.new.new_one ≡ comparing.old.new_one) }
    ensures is_right { OnOk result (IsUnderWay comparing.old → IsUnderWay comparing.new) }
    ensures said { IsUnderWay comparing.old → (said : List ℕ) × AreProgress comparing.old.old_one comparing.old.new_one said
        × (E.NeverFails errors.old → Appends (E.held errors.old) (E.held errors.new) said) }
    ensures lasts { E.NeverFails errors.old → E.NeverFails errors.new }
{
    for _portion in 0..PORTIONS {
        comparing.go_on(alloc, PORTION)?;
        if comparing.is_finished() {
            return Ok(());
        }
        report_second(comparing, seconds, errors);
    }
    Ok(())
}

/// A comparison of two configurations that is at its end. Once a second it is reported how far it is.
fn finished<'a, C: Calendar, E: OctetSink>(
    alloc: Global,
    old: &'a Config,
    new: &'a Config,
    seconds: &mut Seconds<C>,
    errors: &mut E,
) -> Result<Comparing<'a>, AllocError>
    ensures old { IfOk result (λ c. c.old_one ≡ old.now) }
    ensures new { IfOk result (λ c. c.new_one ≡ new.now) }
    ensures is_right { IfOk result (λ c. IsUnderWay c) }
    ensures said { (said : List ℕ) × AreProgress old.now new.now said
        × (E.NeverFails errors.old → Appends (E.held errors.old) (E.held errors.new) said) }
    ensures lasts { E.NeverFails errors.old → E.NeverFails errors.new }
{
    let mut comparing = Comparing::new(alloc, old, new)?;
    finish(alloc, &mut comparing, seconds, errors)?;
    Ok(comparing)
}

/// What is printed of a comparison that is at its end, behind what is said of the assertions, and how many steps it took if that
/// is asked for.
fn lines_of(
    alloc: Global,
    steps: bool,
    how: Printing<'_>,
    front: Vec<u8>,
    comparing: Comparing<'_>,
) -> Result<Lines, AllocError>
    ensures { IfOk result (λ lines. IsUnderWay comparing.entry → IsComparedBehind steps (manner_of how.entry) front.items
        comparing.entry.old_one comparing.entry.new_one lines.made lines.text.items) }
{
    let used = comparing.steps();
    let mut text = front;
    let made = comparing.put(alloc, how, &mut text)?;
    if steps {
        put_steps(used, &mut text)?;
    }
    Ok(Lines { text, made })
}

/// What is printed of a comparison of two configurations that is at its end, as text: first what became of their assertions.
fn lines_as_text(
    alloc: Global,
    most: u64,
    steps: bool,
    sides: &Sides<'_>,
    comparing: Comparing<'_>,
) -> Result<Lines, AllocError>
    ensures { IfOk result (λ lines. comparing.entry.old_one ≡ sides.now.old.now.config
        → comparing.entry.new_one ≡ sides.now.new.now.config → IsUnderWay comparing.entry
        → IsComparedAsText most steps sides.now.old.now sides.now.new.now lines.made lines.text.items) }
{
    let mut front = Vec::new(alloc);
    put_assertions(alloc, &mut front, &sides.old.config, &sides.new.config)?;
    let how = Printing {
        most: most as usize,
        old_lines: &sides.old.lines,
        new_lines: &sides.new.lines,
    };
    lines_of(alloc, steps, how, front, comparing)
}

/// What is printed of a comparison of two configurations that is at its end.
fn lines_as(
    alloc: Global,
    limits: Limits,
    sides: &Sides<'_>,
    comparing: Comparing<'_>,
) -> Result<Lines, AllocError>
    ensures { IfOk result (λ lines. comparing.entry.old_one ≡ sides.now.old.now.config
        → comparing.entry.new_one ≡ sides.now.new.now.config → IsUnderWay comparing.entry
        → IsCompared limits sides.now.old.now sides.now.new.now lines.made lines.text.items) }
{
    match limits.layout {
        Layout::Text { steps } => lines_as_text(alloc, limits.most, steps, sides, comparing),
        Layout::Json => {
            let (old, new) = (&sides.old.config, &sides.new.config);
            comparison_lines(alloc, limits.most as usize, old, new, comparing)
        }
    }
}

/// What is printed of two configurations, and once a second how far their comparison is.
fn compared<C: Calendar, E: OctetSink>(
    alloc: Global,
    limits: Limits,
    sides: &Sides<'_>,
    seconds: &mut Seconds<C>,
    errors: &mut E,
) -> Result<Lines, AllocError>
    ensures compared { IfOk result (λ lines.
        IsCompared limits sides.now.old.now sides.now.new.now lines.made lines.text.items) }
    ensures said { (said : List ℕ) × AreProgress sides.now.old.now.config sides.now.new.now.config said
        × (E.NeverFails errors.old → Appends (E.held errors.old) (E.held errors.new) said) }
    ensures lasts { E.NeverFails errors.old → E.NeverFails errors.new }
{
    let comparing = finished(alloc, &sides.old.config, &sides.new.config, seconds, errors)?;
    lines_as(alloc, limits, sides, comparing)
}

/// How a comparison ends: `OtherParts` if only other parts differ, and `Different` if an ask may be decided otherwise.
fn outcome_of(made: Compared) -> Result<(), Fault>
    ensures { result ≡ outcome_of_comparison made }
{
    match made {
        Compared::Alike => Ok(()),
        Compared::OtherParts => Err(Fault::OtherParts),
        Compared::Different | Compared::Paired | Compared::Unfinished => Err(Fault::Different),
    }
}

/// What is said of a comparison.
fn said_of(lines: Lines) -> Said
    ensures text { result.text ≡ lines.text }
    ensures ends { result.ends ≡ outcome_of_comparison lines.made }
    ensures unprinted { result.unprinted ≡ fault.Write }
{
    let ends = outcome_of(lines.made);
    Said::ending(lines.text, ends)
}

/// What is said of two configurations, and once a second how far their comparison is. `Memory` is its only fault.
pub fn say_compared<C: Calendar, E: OctetSink>(
    alloc: Global,
    limits: Limits,
    sides: &Sides<'_>,
    seconds: &mut Seconds<C>,
    errors: &mut E,
) -> Result<Said, Fault>
    ensures compared { SaysCompared (IsCompared limits sides.now.old.now sides.now.new.now) result }
    ensures said { (said : List ℕ) × AreProgress sides.now.old.now.config sides.now.new.now.config said
        × (E.NeverFails errors.old → Appends (E.held errors.old) (E.held errors.new) said) }
    ensures lasts { E.NeverFails errors.old → E.NeverFails errors.new }
{
    let lines = compared(alloc, limits, sides, seconds, errors)?;
    Ok(said_of(lines))
}

/// What `compare` says of the two that were read. Faults: why there is no first or no second one, and `Memory`.
pub fn compare<C: Calendar, E: OctetSink>(
    alloc: Global,
    limits: Limits,
    both: Both,
    seconds: &mut Seconds<C>,
    errors: &mut E,
) -> Result<Said, Fault>
    ensures compared { SaysOfBoth (λ old new. SaysCompared (IsCompared limits old new)) both.old both.new result }
    ensures said { (said : List ℕ) × ReportsProgress both.old both.new said
        × (E.NeverFails errors.old → Appends (E.held errors.old) (E.held errors.new) said) }
    ensures lasts { E.NeverFails errors.old → E.NeverFails errors.new }
{
    let old = both.old?;
    match both.new {
        Ok(new) => {
            let sides = Sides {
                old: &old,
                new: &new,
            };
            say_compared(alloc, limits, &sides, seconds, errors)
        }
        Err(fault) => Err(fault.of_other()),
    }
}
