//! The whole page.
ghost use Rattle.std.specs.Prelude.{◌≡◌, ◌++◌, [], ℕ, List, false, true, unwrap_or, codes, string_bytes, IfOk, OnOk};
ghost use Rattle.std.specs.List.{flat_map};
ghost use Rattle.gw_ask_sets.specs.assertions.Judging.{AreJudged};
ghost use Rattle.gw_codecs.specs.names.Names.{object_type_name};
ghost use Rattle.gw_configuration.specs.Kinds.{type_number};
ghost use Rattle.gw_report.specs.Report.{IsAccess, IsReport, announced_text, first_text, head_text, last_text, object_row, objects_head};
ghost use Rattle.gw_report.specs.Report.{objects_table, objects_text, paragraph, policy_text, sizes_text, title_of, ways_text};
ghost use Rattle.gw_report.specs.page.Page.{IsPage};

use crate::access::{access_of, lines_of};
use crate::assertions::put_assertions;
use crate::fault::ReportFault;
use crate::log::{Denials, read_log};
use crate::page::{Page, PageElement};
use crate::plots::put_denials;
use crate::rules::{Times, put_rules};
use crate::site::put_site;
use gw_ask_sets::assertions::{JUDGING_STEPS, Judged, judge};
use gw_codecs::names::object_type_name;
use gw_configuration::{Config, Object, Text};
use gw_rules::NO_RULE;
use gw_script::OctetSource;
use std::alloc::{AllocError, Global};

/// A page of HTML that shows a configuration: the site as a picture, who may do what, the rules with their notes, the
/// assertions with what is found of each, and the objects. It has no script and takes nothing from elsewhere, and every text of
/// the configuration is escaped.
/// `lines` are those of the configuration's text on which the tables of its rules begin, or none if they aren't known.
///
/// An `Err` only if a growth of memory was refused.
pub fn report(alloc: Global, config: &Config, lines: &[u32]) -> Result<Vec<u8>, AllocError>
    ensures page { IfOk result (λ octets. IsPage octets.items) }
    ensures shows { IfOk result (λ octets. IsReport config.now lines.now false [] octets.items) }
{
    let times = Times::none(alloc);
    let page = page_of(alloc, config, lines, &times, None)?;
    Ok(page.into_octets())
}

/// The same, and the denials that a log has left, by hour, rule, source and object. Every text of the log is escaped.
///
/// A line may have a stamp in front. One that shows no denial, or has more than 4096 octets, is only counted.
/// Faults: `Read` if a read of the log failed, and `Memory`.
pub fn report_with_log<R: OctetSource>(
    alloc: Global,
    config: &Config,
    lines: &[u32],
    log: &mut R,
) -> Result<Vec<u8>, ReportFault>
    ensures page { IfOk result (λ octets. IsPage octets.items) }
    ensures shows { IfOk result (λ octets. (times : List ℕ) × IsReport config.now lines.now true times octets.items) }
{
    let denials = read_log(alloc, log)?;
    let times = times_of(alloc, config, &denials)?;
    let page = page_of(alloc, config, lines, &times, Some(&denials))?;
    Ok(page.into_octets())
}

/// How often each rule denied, in their order, and then how often none matched.
fn times_of(alloc: Global, config: &Config, denials: &Denials) -> Result<Times, AllocError>
    ensures { IfOk result (λ times. times.are_shown ≡ true) }
{
    let mut counts = Vec::new(alloc);
    for rule in config.rules().rules() {
        counts.push(denials.rules.get(rule.name.as_str()))?;
    }
    counts.push(denials.rules.get(NO_RULE))?;
    Ok(Times {
        are_shown: true,
        counts,
    })
}

/// What is made before the page. Of the picture of the site, the lines that say who may do what, and the plots of what a log
/// denied no more is said than that they are pages; the table of who may do what, and what is found of each assertion, are right.
#[derive(Drop)]
struct PageParts {
    picture: Page,
    access: Page,
    lines: Page,
    plots: Page,
    judged: Vec<Judged>,
}

fn parts_of(
    alloc: Global,
    config: &Config,
    lines: &[u32],
    denials: Option<&Denials>,
) -> Result<PageParts, AllocError>
    ensures picture { IfOk result (λ parts. IsPage parts.picture) }
    ensures access { IfOk result (λ parts. IsAccess config.now parts.access) }
    ensures lines { IfOk result (λ parts. IsPage parts.lines) }
    ensures plots { IfOk result (λ parts. IsPage parts.plots) }
    ensures judged { IfOk result (λ parts. AreJudged config.now 4096 parts.judged.items) }
{
    let picture = picture_of(alloc, config)?;
    let access = access_of(alloc, config)?;
    let lines = lines_of(alloc, config, lines)?;
    let plots = plots_of(alloc, denials)?;
    let judged = judge(alloc, config, JUDGING_STEPS)?;
    picture.is_page();
    lines.is_page();
    plots.is_page();
    Ok(PageParts {
        picture,
        access,
        lines,
        plots,
        judged,
    })
}

fn page_of(
    alloc: Global,
    config: &Config,
    lines: &[u32],
    times: &Times,
    denials: Option<&Denials>,
) -> Result<Page, AllocError>
    ensures { IfOk result (λ page. IsReport config.now lines.now times.now.are_shown times.now.counts.items page) }
{
    let parts = parts_of(alloc, config, lines, denials)?;
    let mut page = Page::new(alloc);
    put_first(alloc, &mut page, config, &parts)?;
    put_last(
        alloc,
        &mut page,
        &Sources {
            config,
            lines,
            times,
        },
        &parts,
    )?;
    Ok(page)
}

#[tactic(auto, unfolding(crate::specs::Report::first_text))]
fn put_first(
    alloc: Global,
    page: &mut Page,
    config: &Config,
    parts: &PageParts,
) -> Result<(), AllocError>
    ensures { OnOk result (page.new ≡ page.old ++ first_text config.now parts.now.picture parts.now.access parts.now.lines) }
{
    put_head(alloc, page, config)?;
    page.append(&parts.picture)?;
    page.append(&parts.access)?;
    page.append(&parts.lines)
}

/// What the rules of the page are made of.
#[derive(Clone, Copy)]
struct Sources<'a> {
    /// The configuration.
    config: &'a Config,
    /// The lines of its text on which the tables of its rules begin, or none if they aren't known.
    lines: &'a [u32],
    /// How often each rule denied.
    times: &'a Times,
}

#[tactic(auto, unfolding(crate::specs::Report::last_text))]
fn put_last(
    alloc: Global,
    page: &mut Page,
    sources: &Sources<'_>,
    parts: &PageParts,
) -> Result<(), AllocError>
    ensures { OnOk result (page.new ≡ page.old ++ last_text sources.now.config.now sources.now.lines.now
        sources.now.times.now.are_shown sources.now.times.now.counts.items parts.now.judged.items parts.now.plots) }
{
    let config = sources.config;
    put_rules(alloc, page, config, sources.lines, sources.times)?;
    put_assertions(page, config, &parts.judged)?;
    put_objects(page, config.objects())?;
    page.append(&parts.plots)?;
    page.end()
}

/// The picture of the site.
fn picture_of(alloc: Global, config: &Config) -> Result<Page, AllocError> {
    let mut page = Page::new(alloc);
    put_site(alloc, &mut page, config)?;
    Ok(page)
}

/// What a log denied, as plots.
fn plots_of(alloc: Global, denials: Option<&Denials>) -> Result<Page, AllocError> {
    let mut page = Page::new(alloc);
    if let Some(denials) = denials {
        put_denials(alloc, &mut page, denials)?;
    }
    Ok(page)
}

/// Appends the title, and how much the configuration has.
#[tactic(auto, unfolding(crate::specs::Report::head_text))]
fn put_head(alloc: Global, page: &mut Page, config: &Config) -> Result<(), AllocError>
    ensures { OnOk result (page.new ≡ page.old ++ head_text config.now) }
{
    let title = title_of(alloc, config)?;
    page.begin(title.as_str())?;
    page.element(PageElement::Title, title.as_str())?;
    put_description(page, &config.device().description)?;
    put_sizes(page, config)
}

fn title_of(alloc: Global, config: &Config) -> Result<String, AllocError>
    ensures { IfOk result (λ title. string_bytes title ≡ title_of config.now) }
{
    let mut title = String::new(alloc);
    title.push_str("BACnet/IP gateway: ")?;
    title.push_str(config.device().name.as_str())?;
    Ok(title)
}

#[tactic(auto, unfolding(crate::specs::Report::paragraph))]
fn put_description(page: &mut Page, description: &Text) -> Result<(), AllocError>
    ensures { OnOk result (page.new ≡ page.old ++ paragraph description.now) }
{
    if description.as_str().is_empty() {
        return Ok(());
    }
    page.element(PageElement::Paragraph, description.as_str())
}

#[tactic(auto, unfolding(crate::specs::Report::sizes_text))]
fn put_sizes(page: &mut Page, config: &Config) -> Result<(), AllocError>
    ensures { OnOk result (page.new ≡ page.old ++ sizes_text config.now) }
{
    page.open(PageElement::Aside)?;
    put_ways(page, config)?;
    put_policy(page, config)?;
    put_announced(page, config.announces())?;
    page.close(PageElement::Aside)
}

#[tactic(auto, unfolding(crate::specs::Report::ways_text))]
fn put_ways(page: &mut Page, config: &Config) -> Result<(), AllocError>
    ensures { OnOk result (page.new ≡ page.old ++ ways_text config.now) }
{
    page.number(config.ports().len() as u64)?;
    page.text(" ports, ")?;
    page.number(config.routes().len() as u64)?;
    page.text(" routes, ")
}

#[tactic(auto, unfolding(crate::specs::Report::policy_text))]
fn put_policy(page: &mut Page, config: &Config) -> Result<(), AllocError>
    ensures { OnOk result (page.new ≡ page.old ++ policy_text config.now) }
{
    page.number(config.objects().len() as u64)?;
    page.text(" objects, ")?;
    page.number(config.rules().rules().len() as u64)?;
    page.text(" rules.")
}

#[tactic(auto, unfolding(crate::specs::Report::announced_text))]
fn put_announced(page: &mut Page, announces: bool) -> Result<(), AllocError>
    ensures { OnOk result (page.new ≡ page.old ++ announced_text announces) }
{
    if announces {
        page.text(" Networks are announced.")
    } else {
        Ok(())
    }
}

/// Appends a table of the objects, if there are such.
fn put_objects(page: &mut Page, objects: &[Object]) -> Result<(), AllocError>
    ensures { OnOk result (page.new ≡ page.old ++ objects_text objects.now) }
{
    if objects.is_empty() {
        return Ok(());
    }
    put_objects_table(page, objects)
}

#[tactic(auto, unfolding(crate::specs::Report::objects_table))]
fn put_objects_table(page: &mut Page, objects: &[Object]) -> Result<(), AllocError>
    ensures { OnOk result (page.new ≡ page.old ++ objects_table objects.now) }
{
    page.element(PageElement::Heading, "Objects of the device")?;
    page.open(PageElement::Table)?;
    put_objects_head(page)?;
    put_each_object(page, objects)?;
    page.close(PageElement::Table)
}

#[tactic(auto, unfolding(crate::specs::Report::objects_head))]
fn put_objects_head(page: &mut Page) -> Result<(), AllocError>
    ensures { OnOk result (page.new ≡ page.old ++ objects_head) }
{
    page.open(PageElement::Row)?;
    page.element(PageElement::Head, "type")?;
    page.element(PageElement::Head, "instance")?;
    page.element(PageElement::Head, "name")?;
    page.element(PageElement::Head, "description")?;
    page.close(PageElement::Row)
}

fn put_each_object(page: &mut Page, objects: &[Object]) -> Result<(), AllocError>
    ensures { OnOk result (page.new ≡ page.old ++ flat_map object_row objects.now) }
{
    for object in objects {
        put_object(page, object)?;
    }
    Ok(())
}

#[tactic(auto, unfolding(crate::specs::Report::object_row))]
fn put_object(page: &mut Page, object: &Object) -> Result<(), AllocError>
    ensures { OnOk result (page.new ≡ page.old ++ object_row object.now) }
{
    page.open(PageElement::Row)?;
    page.element(PageElement::Cell, type_name(object))?;
    page.number_cell(u64::from(object.instance.get()))?;
    page.element(PageElement::Cell, object.name.as_str())?;
    page.element(PageElement::Cell, object.description.as_str())?;
    page.close(PageElement::Row)
}

/// The standard's name of the type of an object.
fn type_name(object: &Object) -> &'static str
    ensures { result.now ≡ unwrap_or (object_type_name (type_number object.now.value)) (codes "object") }
{
    match object_type_name(object.value.type_number()) {
        Some(name) => name,
        None => "object",
    }
}
