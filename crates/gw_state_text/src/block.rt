//! Lines of one kind that follow one another: peers, entries, devices, routes, slots, objects with their
//! slots, and ports with their tables.

ghost use Rattle.std.specs.Prelude.{◌≡◌, ◌++◌, [], ℕ, List, Result, IfOk, IfErr};
ghost use Rattle.std.specs.List.{flat_map};
ghost use Rattle.gw_state_text.specs.declared.fault.Stop.{Stop as Stopped};
ghost use Rattle.gw_state_text.specs.Items.{AreItems};
ghost use Rattle.gw_state_text.specs.Reading.{ReadsLines, all_at};
ghost use Rattle.gw_state_text.specs.internal.Block.{StopsAfter};

use crate::fault::{FaultKind, Stop};
use std::alloc::Global;

/// A kind of items that follow one another, each of one line or more.
pub(crate) trait Block {
    type Item: Drop;

    /// The lines of an item.
    ghost line: { Self → Self.Item → List ℕ };

    /// An item can follow these.
    ghost Fits: { Self → List Self.Item → Self.Item → Type 0 };

    /// How many items there can be.
    ghost count: { Self → ℕ };

    /// The word that each item begins with, and its space.
    ghost opens: { Self → List ℕ };

    /// What reading an item after these gives.
    ghost reads: { Self → List Self.Item → List ℕ → Result (Self.Item × List ℕ) Stopped };

    /// The word that each item begins with, and its space.
    fn word(&self) -> &'static [u8]
        ensures { result.now ≡ opens self.now };

    /// How many items there can be.
    fn most(&self) -> usize
        ensures { result ≡ count self.now };

    /// Reads the item at the front of a text, after these items, and lends what comes after it.
    fn read<'a>(
        &self,
        alloc: Global,
        before: &[Self::Item],
        text: &'a [u8],
    ) -> Result<(Self::Item, &'a [u8]), Stop>
        ensures found { IfOk result (λ x. text.now ≡ line self.now x.0 ++ x.1.now) }
        ensures fits { IfOk result (λ x. Fits self.now before.now x.0) }
        ensures stop { IfErr result (λ stop. StopsAfter (line self.now) text.now stop.left) }
        ensures exact { ReadsLines (λ x. (x.0, x.1.now)) result (reads self.now before.now text.now) };
}

/// Reads items from the front of a text as long as their word follows.
pub(crate) fn read_all<'a, B: Block>(
    alloc: Global,
    block: &B,
    text: &'a [u8],
) -> Result<(Vec<B::Item>, &'a [u8]), Stop>
    ensures found { IfOk result (λ x. text.now ≡ flat_map (B.line block.now) x.0.items ++ x.1.now) }
    ensures fits { IfOk result (λ x. AreItems (B.Fits block.now) (B.count block.now) x.0.items) }
    ensures stop { IfErr result (λ stop. StopsAfter (B.line block.now) text.now stop.left) }
    ensures exact { ReadsLines (λ x. (x.0.items, x.1.now)) result
        (all_at (B.reads block.now) (B.opens block.now) (B.count block.now) [] text.now) }
{
    let mut items = Vec::new(alloc);
    let mut rest = text;
    for _count in 0..block.most() {
        if !rest.starts_with(block.word()) {
            return Ok((items, rest));
        }
        let (item, remaining) = match block.read(alloc, items.as_slice(), rest) {
            Ok(read) => read,
            Err(stop) => return Err(stop),
        };
        let Ok(()) = items.push(item) else {
            return Err(Stop::at(rest, FaultKind::Memory));
        };
        rest = remaining;
    }
    if rest.starts_with(block.word()) {
        return Err(Stop::at(rest, FaultKind::TooMany));
    }
    Ok((items, rest))
}
