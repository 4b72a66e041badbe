// A list of records with room for so many. It is copied as one value, which a vector of fixed capacity is not.
ghost use Rattle.std.specs.Prelude.{◌≡◌, ℕ, ◌<◌, ◌≤◌, length, slice_index_or};

use std::alloc::AllocError;

#[derive(Copy)]
pub struct Table<T, const N: usize> {
    pub rows: [T; N],
    pub count: usize,
    pub ghost sound: { (length rows ≡ N) × (count ≤ N) },
}

impl<T: Clone, const N: usize> Clone for Table<T, N> {
    ghost use Rattle.std.specs.Array.{AllZipBelow};
    ghost use Rattle.std.specs.Array.Iter.{IntoIterFitsInMemory};

    ghost is_clone = { λ t u. AllZipBelow T.is_clone t.rows u.rows N × (u.count ≡ t.count) };

    ghost is_infallible = { λ t. IntoIterFitsInMemory T.row N.row × ((i : ℕ) (d : T) → i < N → T.is_infallible (slice_index_or t.rows i d)) };

    fn clone(&self) -> Result<Self, AllocError> {
        Ok(Table {
            rows: self.rows.clone()?,
            count: self.count,
        })
    }
}

impl<T: Copy, const N: usize> Table<T, N> {
    ghost use Rattle.std.specs.Prelude.{[], ◌∷◌, ◌++◌, if◌then◌else◌, nat_lt};
    ghost use Rattle.plant.specs.Tables.{listed};

    pub fn new(blank: T) -> Table<T, N>
        ensures { listed result ≡ [] }
    {
        Table {
            rows: [blank; N],
            count: 0,
        }
    }

    // One row more; false where it is full.
    pub fn push(&mut self, row: T) -> bool
        ensures pushed { result ≡ nat_lt (length (listed self.old)) N }
        ensures listed { listed self.new ≡ (if result then listed self.old ++ row ∷ [] else listed self.old) }
    {
        if self.count >= N {
            return false;
        }
        self.rows[self.count] = row;
        self.count += 1;
        true
    }

    pub fn as_slice(&self) -> &[T]
        ensures { result.now ≡ listed self.now }
    {
        let rows = &self.rows[..];
        &rows[0..self.count]
    }
}
