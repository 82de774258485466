//! What a log denied, as plots of bars.

use crate::counts::{Count, LabelCounts};
use crate::log::Denials;
use crate::page::{Label, Page, PageElement, PicturePlace, Shape, Size};
use itoa::Buffer;
use std::alloc::{AllocError, Global};

/// How many rows a plot has at most.
const MAX_ROWS: usize = 24;

/// How many hours it has at most, the last ones.
const MAX_HOURS: usize = 72;

/// How high a row is, how far from the left its bar begins, and how long a bar is at most.
const ROW: u64 = 20;

const BAR: u64 = 290;

const LONGEST: u64 = 350;

/// Appends what was denied by hour, by rule, by source and by object.
pub(crate) fn put_denials(
    alloc: Global,
    page: &mut Page,
    denials: &Denials,
) -> Result<(), AllocError> {
    page.element(PageElement::Heading, "What was denied")?;
    put_sums(page, denials)?;
    if denials.all == 0 {
        return Ok(());
    }
    put_hours(alloc, page, &denials.hours)?;
    put_plot(alloc, page, "By rule", &denials.rules)?;
    put_plot(alloc, page, "By source", &denials.sources)?;
    put_plot(alloc, page, "By object", &denials.objects)
}

fn put_sums(page: &mut Page, denials: &Denials) -> Result<(), AllocError> {
    page.open(PageElement::Paragraph)?;
    page.number(denials.all)?;
    page.text(" denials in the log; ")?;
    page.number(denials.unread)?;
    page.text(" lines that show none.")?;
    page.close(PageElement::Paragraph)
}

/// Appends a plot of the hours, the first of those shown at the top.
fn put_hours(alloc: Global, page: &mut Page, hours: &LabelCounts) -> Result<(), AllocError> {
    page.element(PageElement::Subheading, "By hour")?;
    let list = hours.in_order(alloc)?;
    let skipped = list.len().saturating_sub(MAX_HOURS);
    put_bars(page, list.get(skipped..).unwrap_or(&[]))?;
    page.element(
        PageElement::Aside,
        "If a line has no date, its hour is one of the run, from 0.",
    )?;
    put_rest(page, skipped as u64, "earlier hours aren't shown.")?;
    put_rest(page, hours.others(), "denials of other hours aren't shown.")
}

/// Appends a plot of the labels that were counted most.
fn put_plot(
    alloc: Global,
    page: &mut Page,
    title: &str,
    counts: &LabelCounts,
) -> Result<(), AllocError> {
    page.element(PageElement::Subheading, title)?;
    let list = counts.by_count(alloc)?;
    let shown = list.len().min(MAX_ROWS);
    put_bars(page, list.get(..shown).unwrap_or(&[]))?;
    let rest = sum_of(list.get(shown..).unwrap_or(&[])).saturating_add(counts.others());
    put_rest(page, rest, "other denials aren't shown.")
}

fn sum_of(list: &[Count<'_>]) -> u64 {
    let mut sum = 0u64;
    for each in list {
        sum = sum.saturating_add(each.count);
    }
    sum
}

/// Appends how many aren't shown, if there are such.
fn put_rest(page: &mut Page, count: u64, words: &str) -> Result<(), AllocError> {
    if count == 0 {
        return Ok(());
    }
    page.open(PageElement::Aside)?;
    page.number(count)?;
    page.text(" ")?;
    page.text(words)?;
    page.close(PageElement::Aside)
}

fn put_bars(page: &mut Page, list: &[Count<'_>]) -> Result<(), AllocError> {
    page.open_picture((list.len() as u64).saturating_mul(ROW).saturating_add(4))?;
    let most = most_of(list);
    for (place, each) in list.iter().enumerate() {
        put_bar(page, (place as u64).saturating_mul(ROW), *each, most)?;
    }
    page.close_picture()
}

fn most_of(list: &[Count<'_>]) -> u64 {
    let mut most = 1;
    for each in list {
        most = most.max(each.count);
    }
    most
}

/// Appends a row: the label, a bar, and the count.
fn put_bar(page: &mut Page, top: u64, each: Count<'_>, most: u64) -> Result<(), AllocError> {
    let width = length_of(each.count, most);
    let base = top.saturating_add(14);
    page.label(Label::Plain, PicturePlace { x: 0, y: base }, each.label)?;
    page.draw(
        Shape::Bar,
        PicturePlace {
            x: BAR,
            y: top.saturating_add(3),
        },
        Size { width, height: 14 },
    )?;
    let x = BAR.saturating_add(width).saturating_add(6);
    page.label(
        Label::Light,
        PicturePlace { x, y: base },
        Buffer::new().format(each.count),
    )
}

/// How long the bar of a count is, at least 1.
fn length_of(count: u64, most: u64) -> u64 {
    count
        .saturating_mul(LONGEST)
        .checked_div(most)
        .unwrap_or(0)
        .clamp(1, LONGEST)
}
