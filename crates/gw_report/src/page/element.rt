//! The elements of a page.

/// An element of a page, with what it is for.
#[derive(Clone, Copy)]
pub enum PageElement {
    /// The title of the page.
    Title,
    /// The heading of a part.
    Heading,
    /// The heading of a part of a part.
    Subheading,
    /// A paragraph.
    Paragraph,
    /// A paragraph that explains what comes before or after it.
    Aside,
    /// A table, which a narrow screen can move.
    Table,
    /// A row of a table.
    Row,
    /// A cell that is a heading.
    Head,
    /// A cell.
    Cell,
    /// A cell with a number.
    Number,
    /// A cell that says that all is so.
    All,
    /// A cell that says that some is so.
    Some,
    /// A cell that says that nothing is so.
    Nothing,
    /// A list.
    List,
    /// An item of a list.
    Item,
    /// Words of a language for machines.
    Code,
}
