//! A page as it grows.

ghost use Rattle.std.specs.Prelude.{◌≡◌, ◌++◌, [], decimal, OnErr, OnOk};
ghost use Rattle.gw_report.specs.page.Elements.{begin_text, close_text, element_text, number_cell, open_text};
ghost use Rattle.gw_report.specs.page.Escape.{escaped};
ghost use Rattle.gw_report.specs.page.Mark.{mark_text};
ghost use Rattle.gw_report.specs.page.Page.{IsPage};

use crate::page::drawing::{Label, PicturePlace, Shape, Size};
use crate::page::element::PageElement;
use crate::page::escape::put_escaped;
use crate::page::mark::Mark;
use gw_addr::{keep_whole, put_slice};
use itoa::Buffer;
use std::alloc::{AllocError, Global};
use std::marker::Model;

/// A page as far as it is made. Contracts see its octets, which are always constants, numbers and escaped texts.
///
/// Each function appends, and its `Err` comes only from a refused growth of memory.
#[derive(Drop)]
pub struct Page {
    octets: Vec<u8>,
}

impl Model for Page {
    ghost use Rattle.std.specs.Prelude.{List, ℕ};
    ghost use Rattle.gw_report.specs.page.Page.{IsPage};

    ghost Value = { List ℕ };

    ghost view = { λ p. p.octets.items };

    ghost invariant = { λ p. IsPage p.octets.items };
}

/// Appends octets, or nothing.
fn put_whole(out: &mut Vec<u8>, octets: &[u8]) -> Result<(), AllocError>
    ensures ok { OnOk result (out.new.items ≡ out.old.items ++ octets.now) }
    ensures err { OnErr result (out.new.items ≡ out.old.items) }
{
    let len = out.len();
    let put = put_slice(out, octets);
    keep_whole(out, len, put)
}

impl Page {
    /// A page that has nothing yet.
    pub fn new(alloc: Global) -> Self
        ensures { result ≡ [] }
    {
        Page {
            octets: Vec::new(alloc),
        }
    }

    /// Its octets: constants, numbers and escaped texts.
    pub fn into_octets(self) -> Vec<u8>
        ensures octets { result.items ≡ self }
        ensures page { IsPage result.items }
    {
        let Page { octets } = self;
        octets
    }

    /// It is one at each moment.
    pub fn is_page(&self)
        ensures { IsPage self.now }
    {
        let _octets = &self.octets;
    }

    /// Appends what is a page itself.
    fn put(&mut self, octets: &[u8]) -> Result<(), AllocError>
        requires { IsPage octets.now }
        ensures ok { OnOk result (self.new ≡ self.old ++ octets.now) }
        ensures err { OnErr result (self.new ≡ self.old) }
    {
        put_whole(&mut self.octets, octets)
    }

    /// Appends a constant.
    #[tactic(auto, using(crate::proofs::page_lemmas::Pages::constant))]
    pub fn mark(&mut self, mark: Mark) -> Result<(), AllocError>
        ensures ok { OnOk result (self.new ≡ self.old ++ mark_text mark) }
        ensures err { OnErr result (self.new ≡ self.old) }
    {
        self.put(mark.text().as_bytes())
    }

    /// Appends a number in decimal digits.
    #[tactic(auto, using(crate::proofs::page_lemmas::Pages::count))]
    pub fn number(&mut self, number: u64) -> Result<(), AllocError>
        ensures ok { OnOk result (self.new ≡ self.old ++ decimal number) }
        ensures err { OnErr result (self.new ≡ self.old) }
    {
        self.put(Buffer::new().format(number).as_bytes())
    }

    /// Appends a text, whatever it holds: what HTML gives a meaning and what controls a terminal is written as entities.
    pub fn text(&mut self, text: &str) -> Result<(), AllocError>
        ensures ok { OnOk result (self.new ≡ self.old ++ escaped text.now) }
        ensures err { OnErr result (self.new ≡ self.old) }
    {
        self.octets_text(text.as_bytes())
    }

    /// Appends the text of these octets in the same way.
    #[tactic(auto, using(crate::proofs::page_lemmas::Pages::foreign))]
    fn octets_text(&mut self, text: &[u8]) -> Result<(), AllocError>
        ensures ok { OnOk result (self.new ≡ self.old ++ escaped text.now) }
        ensures err { OnErr result (self.new ≡ self.old) }
    {
        let mut octets = Vec::new(*self.octets.allocator());
        put_escaped(&mut octets, text)?;
        self.put(&octets)
    }

    /// Appends another page.
    pub fn append(&mut self, other: &Page) -> Result<(), AllocError>
        ensures ok { OnOk result (self.new ≡ self.old ++ other.now) }
        ensures err { OnErr result (self.new ≡ self.old) }
    {
        self.put(&other.octets)
    }

    /// Begins a document of this title.
    #[tactic(auto, unfolding(crate::specs::page::Elements::begin_text))]
    pub fn begin(&mut self, title: &str) -> Result<(), AllocError>
        ensures { OnOk result (self.new ≡ self.old ++ begin_text title.now) }
    {
        self.mark(Mark::Begin)?;
        self.text(title)?;
        self.mark(Mark::Style)
    }

    /// Ends the document.
    pub fn end(&mut self) -> Result<(), AllocError>
        ensures { OnOk result (self.new ≡ self.old ++ mark_text Mark.End) }
    {
        self.mark(Mark::End)
    }

    /// Begins an element.
    #[tactic(auto, unfolding(crate::specs::page::Elements::open_text))]
    pub fn open(&mut self, element: PageElement) -> Result<(), AllocError>
        ensures { OnOk result (self.new ≡ self.old ++ open_text element) }
    {
        self.mark(Mark::Open(element))
    }

    /// Ends an element.
    #[tactic(auto, unfolding(crate::specs::page::Elements::close_text))]
    pub fn close(&mut self, element: PageElement) -> Result<(), AllocError>
        ensures { OnOk result (self.new ≡ self.old ++ close_text element) }
    {
        self.mark(Mark::Close(element))
    }

    /// Appends an element that has this text.
    #[tactic(auto, unfolding(crate::specs::page::Elements::element_text))]
    pub fn element(&mut self, element: PageElement, text: &str) -> Result<(), AllocError>
        ensures { OnOk result (self.new ≡ self.old ++ element_text element text.now) }
    {
        self.open(element)?;
        self.text(text)?;
        self.close(element)
    }

    /// Appends an element that has the text of these octets.
    #[tactic(auto, unfolding(crate::specs::page::Elements::element_text))]
    pub fn octets_element(&mut self, element: PageElement, octets: &[u8]) -> Result<(), AllocError>
        ensures { OnOk result (self.new ≡ self.old ++ element_text element octets.now) }
    {
        self.open(element)?;
        self.octets_text(octets)?;
        self.close(element)
    }

    /// Appends a cell of a table that has this number.
    #[tactic(auto, unfolding(crate::specs::page::Elements::number_cell))]
    pub fn number_cell(&mut self, number: u64) -> Result<(), AllocError>
        ensures { OnOk result (self.new ≡ self.old ++ number_cell number) }
    {
        self.open(PageElement::Number)?;
        self.number(number)?;
        self.close(PageElement::Number)
    }

    /// Begins a picture of this height.
    pub fn open_picture(&mut self, height: u64) -> Result<(), AllocError>
        ensures { OnOk result (self.new ≡
            ((self.old ++ mark_text Mark.Picture) ++ decimal height) ++ mark_text Mark.PictureBody) }
    {
        self.mark(Mark::Picture)?;
        self.number(height)?;
        self.mark(Mark::PictureBody)
    }

    /// Ends a picture.
    pub fn close_picture(&mut self) -> Result<(), AllocError>
        ensures { OnOk result (self.new ≡ self.old ++ mark_text Mark.PictureEnd) }
    {
        self.mark(Mark::PictureEnd)
    }

    /// Draws a rectangle, whose left upper corner is at the place.
    pub fn draw(&mut self, shape: Shape, at: PicturePlace, size: Size) -> Result<(), AllocError> {
        self.mark(Mark::Shape(shape))?;
        self.put_place(at)?;
        self.mark(Mark::Width)?;
        self.number(size.width)?;
        self.mark(Mark::Height)?;
        self.number(size.height)?;
        self.mark(Mark::ShapeEnd)
    }

    /// Draws a text, which begins at the place.
    pub fn label(&mut self, label: Label, at: PicturePlace, text: &str) -> Result<(), AllocError> {
        self.mark(Mark::Label(label))?;
        self.put_place(at)?;
        self.mark(Mark::LabelBody)?;
        self.text(text)?;
        self.mark(Mark::LabelEnd)
    }

    /// Appends both distances of a place.
    fn put_place(&mut self, at: PicturePlace) -> Result<(), AllocError>
        ensures { OnOk result (self.new ≡ ((self.old ++ decimal at.x) ++ mark_text Mark.Down) ++ decimal at.y) }
    {
        self.number(at.x)?;
        self.mark(Mark::Down)?;
        self.number(at.y)
    }
}
