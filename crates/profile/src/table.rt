// Tables that are asked for every number.
ghost use Rattle.std.specs.Prelude.{◌≡◌, slice_index_or};

// The entry at a number, or another one past the last.
pub(crate) fn entry_or<T: Copy>(table: &[T], number: u8, other: T) -> T
    ensures { result ≡ slice_index_or table.now number other }
{
    table.get(usize::from(number)).copied().unwrap_or(other)
}
