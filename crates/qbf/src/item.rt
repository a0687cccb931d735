//! Items by their numbers, counted from 1.
ghost use Rattle.qbf.specs.Items.{Indexes, item_at};
ghost use Rattle.std.specs.Prelude.{◌≡◌};

/// The item with a number, counted from 1; none where there is none.
pub fn item<T: Copy>(items: &[T], number: usize) -> Option<T>
    ensures { result ≡ item_at items.now number }
{
    items.get(number.checked_sub(1)?).copied()
}

/// The index, counted from 0, of the item with a number, counted from 1, among so many; none where there is none.
pub fn index(number: u64, count: usize) -> Option<usize>
    ensures { Indexes number count result }
{
    let index = usize::try_from(number.checked_sub(1)?).ok()?;
    (index < count).then_some(index)
}
