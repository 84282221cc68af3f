// Up to so many items, each in a place of its own. The libraries rest on std alone, which has no
// such type without a heap.
ghost use Rattle.std.specs.Prelude.{◌≡◌, ℕ, ◌+◌, ◌<◌, ◌≤◌, [], ◌∷◌, ◌++◌, length, take, nat_le};
ghost use Rattle.std.specs.Bool.{⊤};

use std::alloc::AllocError;

// The first `count` places are taken.
#[derive(Drop)]
pub(crate) struct Few<T, const N: usize> {
    places: [T; N],
    count: usize,
    ghost many: { count ≤ N },
}

// By hand, since no derive copies a ghost field.
impl<T: Copy, const N: usize> Clone for Few<T, N> {
    ghost is_clone = { λ x y. y ≡ x };

    ghost is_infallible = { λ _. ⊤ };

    fn clone(&self) -> Result<Few<T, N>, AllocError> {
        Ok(*self)
    }
}

impl<T: Copy, const N: usize> Copy for Few<T, N> {}

impl<T: Copy, const N: usize> Few<T, N> {
    ghost use Rattle.verifier.specs.Items.{items_of};

    // No items; a blank one stands in each place.
    pub(crate) fn none(blank: T) -> Few<T, N>
        ensures { items_of result ≡ [] }
    {
        Few {
            places: [blank; N],
            count: 0,
        }
    }

    pub(crate) fn of(items: &[T], blank: T) -> Few<T, N>
        requires { length items.now ≤ N }
        ensures { items_of result ≡ items.now }
    {
        let count = items.len();
        let mut places = [blank; N];
        let front = &mut places[..];
        front[0..count].copy_from_slice(items);
        Few { places, count }
    }

    pub(crate) fn as_slice(&self) -> &[T]
        ensures { result.now ≡ items_of self.now }
    {
        let places = &self.places[..];
        &places[..self.count]
    }

    pub(crate) fn is_full(&self) -> bool
        ensures { result ≡ nat_le N (length (items_of self.now)) }
    {
        self.count >= N
    }

    pub(crate) fn push(&mut self, item: T)
        requires { length (items_of self.old) < N }
        ensures { items_of self.new ≡ items_of self.old ++ item ∷ [] }
    {
        self.places[self.count] = item;
        self.count += 1;
    }
}
