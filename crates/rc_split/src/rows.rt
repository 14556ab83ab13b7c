//! Rows of counts and marks.

ghost use Rattle.std.specs.Prelude.{◌≡◌, ◌+◌, ◌-◌, ◌^◌, ◌<◌, ◌≤◌, ◌⊎◌, ℕ, cond, min, nat_eq, slice_index, slice_set, ◌&&◌};
ghost use Rattle.rc_split.specs.Holdings as spec;

/// Takes so many from the count at a place.
pub fn lessen(row: &mut [u32; 64], place: usize, by: u32)
    requires { by ≤ slice_index row.old place }
    ensures { (k : ℕ) → slice_index row.new k ≡ slice_index row.old k - cond (nat_eq place k) by 0 }
{
    if place < row.len() {
        row[place] -= by;
    }
}

/// Takes so many from the count at a place, or as many as are there.
pub fn lower(row: &mut [u32], place: usize, by: u32)
    ensures { row.new ≡ slice_set row.old place (slice_index row.old place - by) }
{
    if place < row.len() {
        row[place] = row[place].saturating_sub(by);
    }
}

/// Adds so many to the count at a place, if the row has that place.
pub fn heighten(row: &mut [u32], place: usize, by: u32)
    requires { (by ≡ 0) ⊎ (slice_index row.old place + by < 2 ^ 32) }
    ensures { row.new ≡ slice_set row.old place (slice_index row.old place + by) }
{
    if place < row.len() {
        row[place] += by;
    }
}

/// Sets the flag at a place, if the row has that place.
pub fn flag(row: &mut [bool], place: usize, is: bool)
    ensures { row.new ≡ slice_set row.old place is }
{
    if place < row.len() {
        row[place] = is;
    }
}

/// Adds so many to the count at a place.
pub fn raise(row: &mut [u32; 64], place: usize, by: u32)
    requires there { place < 64 }
    requires small { slice_index row.old place + by < 2 ^ 20 }
    ensures { (k : ℕ) → slice_index row.new k ≡ slice_index row.old k + cond (nat_eq place k) by 0 }
{
    row[place] += by;
}

/// Whether the place is marked.
pub fn is_marked(marks: &[u64; 4], place: usize) -> bool
    requires { place < 256 }
    ensures { result ≡ spec.is_marked marks.now place }
{
    marks[place % 4] >> (place / 4) & 1 == 1
}

/// Marks a place, or takes its mark away.
pub fn mark(marks: &mut [u64; 4], place: usize, held: bool)
    requires { place < 256 }
    ensures { (k : ℕ)
        → spec.is_marked marks.new k ≡ cond (nat_eq place k) held (spec.is_marked marks.old k) }
{
    let bit = 1 << (place / 4);
    if held {
        marks[place % 4] |= bit;
    } else {
        marks[place % 4] &= !bit;
    }
}

/// Leaves the least count at each place.
pub fn least_counts(mine: &mut [u32; 64], theirs: &[u32; 64])
    ensures { (k : ℕ)
        → slice_index mine.new k ≡ min (slice_index mine.old k) (slice_index theirs.now k) }
{
    for place in 0..64 {
        mine[place] = mine[place].min(theirs[place]);
    }
}

/// Leaves the marks that are in both.
pub fn least_marks(mine: &mut [u64; 4], theirs: &[u64; 4])
    ensures { (k : ℕ)
        → spec.is_marked mine.new k ≡ (spec.is_marked mine.old k && spec.is_marked theirs.now k) }
{
    for word in 0..4 {
        mine[word] &= theirs[word];
    }
}
