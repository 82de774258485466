//! Lines on what is now, and was.
ghost use Rattle.std.specs.Prelude.{◌≡◌, ◌++◌, ◌==◌, ◌∷◌, [], codes, decimal, find, is_some, if◌then◌else◌, length, nat_eq, Bool, IfOk};
ghost use Rattle.std.specs.Prelude.{List, OnOk, Option, ℕ};
ghost use Rattle.std.specs.Cmp.Lexicographic.{pointwise};
ghost use Rattle.std.specs.List.{flat_map};
ghost use Rattle.std.specs.Option.{option_map};
ghost use Rattle.gw_policy_review.specs.comparison.Details.{each_text, number_change, or_else, order_line, quoted, said, text_change};
ghost use Rattle.gw_policy_review.specs.comparison.Details.{words_change};

use gw_configuration::{Text, put_shown};
use std::alloc::{AllocError, Global};

/// A thing of a configuration, which another one may have too.
pub(crate) trait Thing {
    /// Whether two are one thing, though they may differ.
    ghost is_for: { Self → Self → Bool };
    /// What a line says of one that is there now, and of what it was if it was there.
    ghost change: { List ℕ → Self → Option Self → List ℕ };
    /// What a line says of one that is gone.
    ghost gone: { List ℕ → Self → List ℕ };

    fn is_for(&self, other: &Self) -> bool
        ensures { result ≡ is_for self.now other.now };

    fn put_change(
        &self,
        head: &[u8],
        was: Option<&Self>,
        out: &mut Vec<u8>,
    ) -> Result<(), AllocError>
        ensures { OnOk result (out.new.items ≡
            out.old.items ++ change head.now self.now (option_map (λ x. x.now) was.entry)) };

    fn put_gone(&self, head: &[u8], out: &mut Vec<u8>) -> Result<(), AllocError>
        ensures { OnOk result (out.new.items ≡ out.old.items ++ gone head.now self.now) };
}

/// The one of these things that this one is.
fn find_among<'a, T: Thing>(thing: &T, among: &'a [T]) -> Option<&'a T>
    ensures { option_map (λ x. x.now) result ≡ find (T.is_for thing.now) among.now }
{
    among.iter().find(|other| thing.is_for(*other))
}

/// Appends lines on things that two configurations have.
fn put_each<T: Thing>(
    out: &mut Vec<u8>,
    head: &[u8],
    now: &[T],
    was: &[T],
) -> Result<(), AllocError>
    ensures { OnOk result (out.new.items ≡ out.old.items
        ++ each_text T.is_for (T.change head.now) (T.gone head.now) now.now was.now) }
{
    put_changes(out, head, now, was)?;
    put_losses(out, head, now, was)
}

fn put_changes<T: Thing>(
    out: &mut Vec<u8>,
    head: &[u8],
    now: &[T],
    was: &[T],
) -> Result<(), AllocError>
    ensures { OnOk result (out.new.items ≡ out.old.items
        ++ flat_map (λ x. T.change head.now x (find (T.is_for x) was.now)) now.now) }
{
    for thing in now {
        thing.put_change(head, find_among(thing, was), out)?;
    }
    Ok(())
}

fn put_losses<T: Thing>(
    out: &mut Vec<u8>,
    head: &[u8],
    now: &[T],
    was: &[T],
) -> Result<(), AllocError>
    ensures { OnOk result (out.new.items ≡ out.old.items
        ++ flat_map (λ x. if is_some (find (T.is_for x) now.now) then [] else T.gone head.now x) was.now) }
{
    for thing in was {
        put_loss(out, head, now, thing)?;
    }
    Ok(())
}

fn put_loss<T: Thing>(
    out: &mut Vec<u8>,
    head: &[u8],
    now: &[T],
    thing: &T,
) -> Result<(), AllocError>
    ensures { OnOk result (out.new.items ≡ out.old.items
        ++ (if is_some (find (T.is_for thing.now) now.now) then [] else T.gone head.now thing.now)) }
{
    match find_among(thing, now) {
        Some(_) => Ok(()),
        None => thing.put_gone(head, out),
    }
}

/// Appends lines on things that two configurations have, or that they are in another order if nothing else is said.
pub(crate) fn put_things<T: Thing>(
    out: &mut Vec<u8>,
    head: &[u8],
    words: &[u8],
    now: &[T],
    was: &[T],
) -> Result<(), AllocError>
    ensures { OnOk result (out.new.items ≡ out.old.items
        ++ or_else (each_text T.is_for (T.change head.now) (T.gone head.now) now.now was.now) (order_line head.now words.now)) }
{
    let len = out.len();
    put_each(out, head, now, was)?;
    if out.len() != len {
        return Ok(());
    }
    put_order(out, head, words)
}

fn put_order(out: &mut Vec<u8>, head: &[u8], words: &[u8]) -> Result<(), AllocError>
    ensures { OnOk result (out.new.items ≡ out.old.items ++ order_line head.now words.now) }
{
    put_three(out, head, words, b" in another order\n")
}

/// Appends three texts.
pub(crate) fn put_three(
    out: &mut Vec<u8>,
    first: &[u8],
    second: &[u8],
    third: &[u8],
) -> Result<(), AllocError>
    ensures { OnOk result (out.new.items ≡ out.old.items ++ (first.now ++ (second.now ++ third.now))) }
{
    out.extend_from_slice(first)?;
    out.extend_from_slice(second)?;
    out.extend_from_slice(third)
}

/// Appends what is now, and was.
pub(crate) fn put_said(
    out: &mut Vec<u8>,
    head: &[u8],
    words: &[u8],
    now: &[u8],
    was: &[u8],
) -> Result<(), AllocError>
    ensures { OnOk result (out.new.items ≡ out.old.items ++ said head.now words.now now.now was.now) }
{
    out.extend_from_slice(head)?;
    out.extend_from_slice(words)?;
    out.extend_from_slice(now)?;
    out.extend_from_slice(b", was ")?;
    out.extend_from_slice(was)?;
    out.push(b'\n')?;
    Ok(())
}

/// Appends what is now and was, unless they are the same.
pub(crate) fn put_words_change(
    out: &mut Vec<u8>,
    head: &[u8],
    words: &[u8],
    now: &[u8],
    was: &[u8],
) -> Result<(), AllocError>
    ensures { OnOk result (out.new.items ≡ out.old.items ++ words_change head.now words.now now.now was.now) }
{
    if now == was {
        return Ok(());
    }
    put_said(out, head, words, now, was)
}

/// Appends a number that is now another one.
pub(crate) fn put_number_change(
    out: &mut Vec<u8>,
    head: &[u8],
    words: &[u8],
    now: u64,
    was: u64,
) -> Result<(), AllocError>
    ensures { OnOk result (out.new.items ≡ out.old.items ++ number_change head.now words.now now was) }
{
    if now == was {
        return Ok(());
    }
    let alloc = *out.allocator();
    let (now, was) = (now.to_string(alloc)?, was.to_string(alloc)?);
    put_said(out, head, words, now.as_bytes(), was.as_bytes())
}

/// Appends a text that is now another one.
pub(crate) fn put_text_change(
    out: &mut Vec<u8>,
    head: &[u8],
    words: &[u8],
    now: &Text,
    was: &Text,
) -> Result<(), AllocError>
    ensures { OnOk result (out.new.items ≡ out.old.items ++ text_change head.now words.now now.now was.now) }
{
    if now.as_str() == was.as_str() {
        return Ok(());
    }
    let alloc = *out.allocator();
    let (now, was) = (quoted(alloc, now)?, quoted(alloc, was)?);
    put_said(out, head, words, &now, &was)
}

/// A text as a line shows it, in quotes.
fn quoted(alloc: Global, text: &Text) -> Result<Vec<u8>, AllocError>
    ensures { IfOk result (λ made. made.items ≡ quoted text.now) }
{
    let mut made = Vec::new(alloc);
    made.push(b'"')?;
    put_shown(&mut made, text.as_str().as_bytes())?;
    made.push(b'"')?;
    Ok(made)
}
