//! Who may do what: a table by network and operation, and the lines that `bacgwctl explain` has.
ghost use Rattle.std.specs.Prelude.{◌≡◌, ◌+◌, ◌-◌, ◌<◌, ◌^◌, ◌++◌, codes, decimal, IfOk, OnOk};
ghost use Rattle.std.specs.List.{flat_map, list_any};
ghost use Rattle.gw_rules.specs.declared.operation.TheConstants.Operation.{ALL as all_operations};
ghost use Rattle.gw_policy_review.specs.permissions.Texts.{Appends, AreInTurn};
ghost use Rattle.gw_report.specs.Access.{IsCell, asked_shapes, comes_from, is_asked, is_at, is_only};
ghost use Rattle.gw_report.specs.Report.{AreCells, IsAccess, IsRow, IsTable, access_head, access_text, extent_cell, legend_text};
ghost use Rattle.gw_report.specs.Report.{operation_head, own_from, own_of, row_text, table_text, whence_text};
ghost use Rattle.gw_ask_sets.specs.shapes.Shapes.{shapes};
ghost use Rattle.gw_report.specs.page.Elements.{element_text};

use crate::page::{Page, PageElement};
use crate::passing::{Cell, Extent, TABLE_STEPS, cell_of};
use gw_addr::put_decimal;
use gw_ask_sets::shapes::{Shape, shapes_of};
use gw_configuration::{Config, Port};
use gw_policy_review::permissions::put_permissions;
use gw_rules::{Operation, Range, RuleList};
use std::alloc::{AllocError, Global};

/// Whence asks come.
#[derive(Clone, Copy)]
pub(crate) enum Whence {
    /// From the network of the port of this number.
    Port {
        /// The number of the port.
        number: u64,
        /// Its network.
        network: u64,
    },
    /// From the networks of no port, behind routers.
    Beyond,
}

fn is_only(number: u64, range: &Range) -> bool
    ensures { result ≡ is_only number range.now }
{
    range.low == number && range.high == number
}

impl Whence {
    /// Whether the asks of a shape come from the network of this port.
    fn is_at(self, shape: &Shape) -> bool
        ensures { result ≡ is_at self shape.now }
    {
        match self {
            Whence::Port { number, network } => {
                is_only(number, &shape.port.range) && is_only(network, &shape.source_network.range)
            }
            Whence::Beyond => false,
        }
    }

    /// Whether the asks of a shape come from there; from beyond, if they come from the network of none of these ports.
    fn holds(self, own: &[Whence], shape: &Shape) -> bool
        ensures { result ≡ comes_from own.now self shape.now }
    {
        match self {
            Whence::Beyond => !is_at_any(own, shape),
            _ => self.is_at(shape),
        }
    }
}

/// Whether the asks of a shape come from the network of one of the ports.
fn is_at_any(own: &[Whence], shape: &Shape) -> bool
    ensures { result ≡ list_any (λ port. is_at port shape.now) own.now }
{
    own.iter().any(|port| port.is_at(shape))
}

/// What the cells of the table are made of.
#[derive(Clone, Copy)]
struct Table<'a> {
    rules: &'a RuleList,
    own: &'a [Whence],
    shapes: &'a [Shape],
}

impl Table<'_> {
    /// Whether the asks of a shape are for the operation, and come from there.
    fn is_asked(&self, whence: Whence, operation: Operation, shape: &Shape) -> bool
        ensures { result ≡ is_asked self.now.own.now whence operation shape.now }
    {
        shape.operation.range.low == operation.number() && whence.holds(self.own, shape)
    }

    /// The shapes of the asks for an operation from there.
    fn asked(
        &self,
        alloc: Global,
        whence: Whence,
        operation: Operation,
    ) -> Result<Vec<Shape>, AllocError>
        ensures { IfOk result (λ made. made.items ≡ asked_shapes self.now.own.now self.now.shapes.now whence operation) }
    {
        let mut made = Vec::new(alloc);
        for shape in self.shapes {
            if self.is_asked(whence, operation, shape) {
                made.push(*shape)?;
            }
        }
        Ok(made)
    }

    /// What the cell shows of the asks for an operation from there, where so many steps are left.
    fn cell(
        &self,
        alloc: Global,
        whence: Whence,
        operation: Operation,
        left: u32,
    ) -> Result<Cell, AllocError>
        ensures { IfOk result (λ cell. IsCell (asked_shapes self.now.own.now self.now.shapes.now whence operation) self.now.rules.now
            left cell.left cell.extent) }
    {
        let asked = self.asked(alloc, whence, operation)?;
        let found = cell_of(alloc, self.rules, &asked, left)?;
        Ok(found)
    }

    /// Appends the row of what comes from there, and says how many steps are left.
    fn put_row(
        &self,
        alloc: Global,
        page: &mut Page,
        whence: Whence,
        left: u32,
    ) -> Result<u32, AllocError>
        ensures { IfOk result (λ rest. Appends (IsRow self.now.rules.now self.now.own.now self.now.shapes.now whence left rest)
            page.old page.new) }
    {
        let mut cells = Page::new(alloc);
        let rest = self.put_cells(alloc, &mut cells, whence, left)?;
        put_whole_row(alloc, page, whence, &cells)?;
        Ok(rest)
    }

    fn put_cells(
        &self,
        alloc: Global,
        page: &mut Page,
        whence: Whence,
        left: u32,
    ) -> Result<u32, AllocError>
        ensures { IfOk result (λ rest. Appends (AreCells self.now.rules.now self.now.own.now self.now.shapes.now whence left rest)
            page.old page.new) }
    {
        let mut rest = left;
        for operation in Operation::ALL.iter() {
            let cell = self.cell(alloc, whence, *operation, rest)?;
            put_extent(page, cell.extent)?;
            rest = cell.left;
        }
        Ok(rest)
    }

    fn put_rows(&self, alloc: Global, page: &mut Page, left: u32) -> Result<u32, AllocError>
        ensures { IfOk result (λ rest. Appends (AreInTurn
            (λ place whence. IsRow self.now.rules.now self.now.own.now self.now.shapes.now whence) 1 self.now.own.now left rest)
            page.old page.new) }
    {
        let mut rest = left;
        for whence in self.own {
            rest = self.put_row(alloc, page, *whence, rest)?;
        }
        Ok(rest)
    }
}

/// Appends a row of these cells.
#[tactic(auto, unfolding(crate::specs::Report::row_text))]
fn put_whole_row(
    alloc: Global,
    page: &mut Page,
    whence: Whence,
    cells: &Page,
) -> Result<(), AllocError>
    ensures { OnOk result (page.new ≡ page.old ++ row_text whence cells.now) }
{
    page.open(PageElement::Row)?;
    put_whence(alloc, page, whence)?;
    page.append(cells)?;
    page.close(PageElement::Row)
}

/// Who may do what under a configuration: the table.
pub(crate) fn access_of(alloc: Global, config: &Config) -> Result<Page, AllocError>
    ensures { IfOk result (λ page. IsAccess config.now page) }
{
    let table = table_of(alloc, config)?;
    let mut page = Page::new(alloc);
    put_access(&mut page, &table)?;
    Ok(page)
}

#[tactic(auto, unfolding(crate::specs::Report::access_text))]
fn put_access(page: &mut Page, table: &Page) -> Result<(), AllocError>
    ensures { OnOk result (page.new ≡ page.old ++ access_text table.now) }
{
    page.element(PageElement::Heading, "Who may do what")?;
    put_legend(page)?;
    page.append(table)
}

fn put_legend(page: &mut Page) -> Result<(), AllocError>
    ensures { OnOk result (page.new ≡ page.old ++ legend_text) }
{
    page.element(
        PageElement::Aside,
        "Each row is a network from which asks come, each column an operation. all: each such ask is allowed; \
        some: one is allowed, and one denied; none: each is denied; some?: not known, since the search used up its steps; \
        a dash: the gateway raises no such ask.",
    )
}

fn table_of(alloc: Global, config: &Config) -> Result<Page, AllocError>
    ensures { IfOk result (λ page. IsTable config.now.rules (own_of config.now) (shapes config.now) page) }
{
    let shapes = shapes_of(alloc, config)?;
    let own = own_of(alloc, config.ports())?;
    let table = Table {
        rules: config.rules(),
        own: &own,
        shapes: &shapes,
    };
    whole_table(alloc, &table)
}

fn whole_table(alloc: Global, table: &Table<'_>) -> Result<Page, AllocError>
    ensures { IfOk result (λ page. IsTable table.now.rules.now table.now.own.now table.now.shapes.now page) }
{
    let mut rows = Page::new(alloc);
    let between = table.put_rows(alloc, &mut rows, TABLE_STEPS)?;
    let mut last = Page::new(alloc);
    let _rest = table.put_row(alloc, &mut last, Whence::Beyond, between)?;
    let mut page = Page::new(alloc);
    put_table(&mut page, &rows, &last)?;
    Ok(page)
}

#[tactic(auto, unfolding(crate::specs::Report::table_text))]
fn put_table(page: &mut Page, rows: &Page, last: &Page) -> Result<(), AllocError>
    ensures { OnOk result (page.new ≡ page.old ++ table_text rows.now last.now) }
{
    page.open(PageElement::Table)?;
    put_head(page)?;
    page.append(rows)?;
    page.append(last)?;
    page.close(PageElement::Table)
}

/// The networks of the ports.
fn own_of(alloc: Global, ports: &[Port]) -> Result<Vec<Whence>, AllocError>
    ensures { IfOk result (λ own. own.items ≡ own_from 1 ports.now) }
{
    let mut own = Vec::new(alloc);
    for (place, port) in ports.iter().enumerate() {
        own.push(own_at(place, port))?;
    }
    Ok(own)
}

/// The network of the port at a place.
fn own_at(place: usize, port: &Port) -> Whence
    requires { place < 2 ^ 64 - 1 }
    ensures { result ≡ Whence.Port (place + 1) port.now.network }
{
    Whence::Port {
        number: place as u64 + 1,
        network: u64::from(port.network.get()),
    }
}

#[tactic(auto, unfolding(crate::specs::Report::access_head))]
fn put_head(page: &mut Page) -> Result<(), AllocError>
    ensures { OnOk result (page.new ≡ page.old ++ access_head) }
{
    page.open(PageElement::Row)?;
    page.element(PageElement::Head, "from")?;
    put_operations(page)?;
    page.close(PageElement::Row)
}

fn put_operations(page: &mut Page) -> Result<(), AllocError>
    ensures { OnOk result (page.new ≡ page.old ++ flat_map operation_head all_operations) }
{
    for operation in Operation::ALL.iter() {
        put_operation(page, *operation)?;
    }
    Ok(())
}

#[tactic(auto, unfolding(crate::specs::Report::operation_head))]
fn put_operation(page: &mut Page, operation: Operation) -> Result<(), AllocError>
    ensures { OnOk result (page.new ≡ page.old ++ operation_head operation) }
{
    page.element(PageElement::Head, operation.name())
}

/// Appends whence asks come.
fn put_whence(alloc: Global, page: &mut Page, whence: Whence) -> Result<(), AllocError>
    ensures { OnOk result (page.new ≡ page.old ++ element_text PageElement.Head (whence_text whence)) }
{
    let mut text = Vec::new(alloc);
    put_words(&mut text, whence)?;
    page.octets_element(PageElement::Head, &text)
}

#[tactic(auto, unfolding(crate::specs::Report::whence_text))]
fn put_words(text: &mut Vec<u8>, whence: Whence) -> Result<(), AllocError>
    ensures { OnOk result (text.new.items ≡ text.old.items ++ whence_text whence) }
{
    match whence {
        Whence::Port { number, network } => put_network(text, number, network),
        Whence::Beyond => text.extend_from_slice(b"other networks"),
    }
}

fn put_network(text: &mut Vec<u8>, number: u64, network: u64) -> Result<(), AllocError>
    ensures { OnOk result (text.new.items ≡ text.old.items
        ++ (codes "network " ++ (decimal network ++ (codes " (port " ++ (decimal number ++ codes ")"))))) }
{
    text.extend_from_slice(b"network ")?;
    put_decimal(text, network)?;
    text.extend_from_slice(b" (port ")?;
    put_decimal(text, number)?;
    text.extend_from_slice(b")")
}

#[tactic(auto, unfolding(crate::specs::Report::extent_cell))]
fn put_extent(page: &mut Page, extent: Option<Extent>) -> Result<(), AllocError>
    ensures { OnOk result (page.new ≡ page.old ++ extent_cell extent) }
{
    match extent {
        None => page.element(PageElement::Cell, "-"),
        Some(Extent::Nothing) => page.element(PageElement::Nothing, "none"),
        Some(Extent::Some) => page.element(PageElement::Some, "some"),
        Some(Extent::All) => page.element(PageElement::All, "all"),
        Some(Extent::Unknown) => page.element(PageElement::Some, "some?"),
    }
}

/// The lines that say who may enter, speak for a network, and read what is hidden, by the lines of the text on which the tables of the
/// rules begin.
pub(crate) fn lines_of(alloc: Global, config: &Config, lines: &[u32]) -> Result<Page, AllocError> {
    let mut page = Page::new(alloc);
    put_lines(alloc, &mut page, config, lines)?;
    Ok(page)
}

fn put_lines(
    alloc: Global,
    page: &mut Page,
    config: &Config,
    lines: &[u32],
) -> Result<(), AllocError> {
    let mut octets = Vec::new(alloc);
    put_permissions(alloc, config, lines, &mut octets)?;
    let Ok(text) = str::from_utf8(&octets) else {
        return Ok(());
    };
    page.open(PageElement::List)?;
    for line in text.lines() {
        page.element(PageElement::Item, line)?;
    }
    page.close(PageElement::List)
}
