//! The constants of a page: each octet that is neither of a number nor of a foreign text.

ghost use Rattle.std.specs.Prelude.{◌≡◌};
ghost use Rattle.gw_report.specs.page.Mark.{closing, label_text, mark_text, opening, shape_text};

use crate::page::drawing::{Label, Shape};
use crate::page::element::PageElement;

/// A constant of a page.
#[derive(Clone, Copy)]
pub enum Mark {
    /// What comes before the title of the document.
    Begin,
    /// What comes between the title of the document and what it shows, with how that looks.
    Style,
    /// What ends the document.
    End,
    /// The beginning of an element.
    Open(PageElement),
    /// The end of an element.
    Close(PageElement),
    /// The beginning of a picture, up to its height.
    Picture,
    /// What comes between a picture's height and what is in it.
    PictureBody,
    /// The end of a picture.
    PictureEnd,
    /// The beginning of a rectangle, up to its distance from the left.
    Shape(Shape),
    /// The beginning of a text in a picture, up to its distance from the left.
    Label(Label),
    /// What comes between a distance from the left and one from the top.
    Down,
    /// What comes between a distance from the top and a width.
    Width,
    /// What comes between a width and a height.
    Height,
    /// The end of a rectangle.
    ShapeEnd,
    /// What comes between a distance from the top and a text.
    LabelBody,
    /// The end of a text in a picture.
    LabelEnd,
}

/// What comes before the title. The page takes nothing from elsewhere and runs nothing.
pub const BEGIN: &str = "<!DOCTYPE html>
<html lang=\"en\"><head><meta charset=\"utf-8\">
<meta http-equiv=\"Content-Security-Policy\" content=\"default-src 'none'; style-src 'unsafe-inline'\">
<meta name=\"viewport\" content=\"width=device-width, initial-scale=1\">
<title>";

/// How the page looks, on a screen and on paper.
pub const STYLE: &str = "</title>
<style>
body{font:15px/1.45 system-ui,sans-serif;color:#1b1f24;background:#fff;max-width:64em;margin:1.5em auto;padding:0 1em}
h1{font-size:1.5em;margin:0 0 .2em;overflow-wrap:anywhere}
h2{font-size:1.15em;margin:1.8em 0 .5em;border-bottom:1px solid #c9d1d9}
h3{font-size:1em;margin:1.3em 0 .3em}
p{margin:.4em 0}
p.aside{color:#57606a;font-size:.9em}
div.wide{overflow-x:auto}
table{border-collapse:collapse;font-size:.87em}
th,td{border:1px solid #d0d7de;padding:.25em .5em;text-align:left;vertical-align:top}
th{background:#f3f5f7}
td.number{text-align:right;font-variant-numeric:tabular-nums}
td.all{background:#cfeed6}
td.some{background:#fdf0c4}
td.nothing{background:#f8d9d6}
td.all,td.some,td.nothing{white-space:nowrap}
code{font:.92em ui-monospace,monospace;overflow-wrap:anywhere;display:block}
ul{margin:.4em 0;padding-left:1.2em;font-size:.93em}
td,li{overflow-wrap:break-word}
svg{width:100%;max-width:54em;height:auto;display:block}
text{font:13px system-ui,sans-serif;fill:#1b1f24}
text.strong{font-weight:600}
text.light{font-size:12px;fill:#57606a}
rect{stroke-width:1.2}
rect.gateway{fill:#dbe7f6;stroke:#3b6ea5}
rect.network{fill:#3b6ea5;stroke:none}
rect.peer{fill:#eef4ec;stroke:#6b9a5b}
rect.router{fill:#fbf1df;stroke:#b98a3c}
rect.device{fill:#efe9f6;stroke:#7b5fa8}
rect.bar{fill:#b5483c;stroke:none}
@media screen and (max-width:44em){
svg{min-width:42em}
td code{min-width:17em}
}
@page{margin:14mm}
@media print{
body{max-width:none;margin:0;padding:0;font-size:11px}
div.wide{overflow:visible}
td{overflow-wrap:anywhere}
h2,h3{break-after:avoid}
tr,li{break-inside:avoid}
td,rect{print-color-adjust:exact;-webkit-print-color-adjust:exact}
}
</style></head><body>
";

impl Mark {
    /// Its octets.
    pub fn text(self) -> &'static str
        ensures { result.now ≡ mark_text self }
    {
        match self {
            Mark::Begin => BEGIN,
            Mark::Style => STYLE,
            Mark::End => "</body></html>\n",
            Mark::Open(element) => opening(element),
            Mark::Close(element) => closing(element),
            Mark::Picture => "<div class=\"wide\"><svg role=\"img\" viewBox=\"0 0 724 ",
            Mark::PictureBody => "\">\n",
            Mark::PictureEnd => "</svg></div>\n",
            Mark::Shape(shape) => shape_text(shape),
            Mark::Label(label) => label_text(label),
            Mark::Down => "\" y=\"",
            Mark::Width => "\" width=\"",
            Mark::Height => "\" height=\"",
            Mark::ShapeEnd => "\" rx=\"3\"/>\n",
            Mark::LabelBody => "\">",
            Mark::LabelEnd => "</text>\n",
        }
    }
}

fn opening(element: PageElement) -> &'static str
    ensures { result.now ≡ opening element }
{
    match element {
        PageElement::Title => "<h1>",
        PageElement::Heading => "<h2>",
        PageElement::Subheading => "<h3>",
        PageElement::Paragraph => "<p>",
        PageElement::Aside => "<p class=\"aside\">",
        PageElement::Table => "<div class=\"wide\"><table>\n",
        PageElement::Row => "<tr>",
        PageElement::Head => "<th>",
        PageElement::Cell => "<td>",
        PageElement::Number => "<td class=\"number\">",
        PageElement::All => "<td class=\"all\">",
        PageElement::Some => "<td class=\"some\">",
        PageElement::Nothing => "<td class=\"nothing\">",
        PageElement::List => "<ul>\n",
        PageElement::Item => "<li>",
        PageElement::Code => "<code>",
    }
}

fn closing(element: PageElement) -> &'static str
    ensures { result.now ≡ closing element }
{
    match element {
        PageElement::Title => "</h1>\n",
        PageElement::Heading => "</h2>\n",
        PageElement::Subheading => "</h3>\n",
        PageElement::Paragraph | PageElement::Aside => "</p>\n",
        PageElement::Table => "</table></div>\n",
        PageElement::Row => "</tr>\n",
        PageElement::Head => "</th>",
        PageElement::Cell
        | PageElement::Number
        | PageElement::All
        | PageElement::Some
        | PageElement::Nothing => "</td>",
        PageElement::List => "</ul>\n",
        PageElement::Item => "</li>\n",
        PageElement::Code => "</code>",
    }
}

fn shape_text(shape: Shape) -> &'static str
    ensures { result.now ≡ shape_text shape }
{
    match shape {
        Shape::Gateway => "<rect class=\"gateway\" x=\"",
        Shape::Network => "<rect class=\"network\" x=\"",
        Shape::Peer => "<rect class=\"peer\" x=\"",
        Shape::Router => "<rect class=\"router\" x=\"",
        Shape::Device => "<rect class=\"device\" x=\"",
        Shape::Bar => "<rect class=\"bar\" x=\"",
    }
}

fn label_text(label: Label) -> &'static str
    ensures { result.now ≡ label_text label }
{
    match label {
        Label::Plain => "<text x=\"",
        Label::Strong => "<text class=\"strong\" x=\"",
        Label::Light => "<text class=\"light\" x=\"",
    }
}
