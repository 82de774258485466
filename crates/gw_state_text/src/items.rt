//! Items of one kind that are written one after the other.

ghost use Rattle.std.specs.Prelude.{ℕ, List};
ghost use Rattle.std.specs.List.{flat_map};
ghost use Rattle.gw_state_text.specs.internal.Put.{IsPut};

use std::alloc::AllocError;

/// A kind of items, each of one line or more.
pub(crate) trait ItemLines {
    type Item;

    /// The lines of an item.
    ghost lines: { Self → Self.Item → List ℕ };

    /// Appends the lines of an item.
    fn put(&self, out: &mut Vec<u8>, item: &Self::Item) -> Result<(), AllocError>
        ensures { IsPut (lines self.now item.now) out.old.items out.new.items result };
}

/// Appends the lines of items.
pub(crate) fn put_all<L: ItemLines>(
    kind: &L,
    out: &mut Vec<u8>,
    items: &[L::Item],
) -> Result<(), AllocError>
    ensures { IsPut (flat_map (L.lines kind.now) items.now) out.old.items out.new.items result }
{
    for item in items {
        kind.put(out, item)?;
    }
    Ok(())
}
