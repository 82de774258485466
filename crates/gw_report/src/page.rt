//! A page of HTML with pictures in SVG, into which foreign texts are put escaped.
//!
//! A [`Page`] grows by three kinds of pieces alone: a [`Mark`], which is one of the constants of this crate, a number, and a
//! text, whatever it holds. A contract sees its octets, and that they are such pieces ([`Page::into_octets`]).
mod drawing;
mod element;
mod escape;
pub mod laws;
mod mark;
mod page;

pub use drawing::{Label, PicturePlace, Shape, Size};
pub use element::PageElement;
pub use mark::Mark;
pub use page::Page;
