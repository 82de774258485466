//! Rules, notes and tables by their numbers, which count from 1.
ghost use Rattle.std.specs.Prelude.{◌≡◌, ◌-◌, option_map, slice_get};
ghost use Rattle.std.specs.Option.{option_and_then};

/// The item of a number, which counts from 1, or none.
pub fn item_at<T>(items: &[T], by: Option<u16>) -> Option<&T>
    ensures { option_map (λ item. item.now) result ≡ option_and_then (λ n. slice_get items.now (n - 1)) by }
{
    match by {
        Some(number) => items.get(usize::from(number).saturating_sub(1)),
        None => None,
    }
}
