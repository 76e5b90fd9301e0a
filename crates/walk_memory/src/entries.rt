//! An entry of each of four rows.
ghost use Rattle.std.specs.Prelude.{◌≡◌, ◌≢◌, ◌<◌, ℕ, slice_set, slice_index};
ghost use Rattle.walk_memory.specs.Lanes.{entries};

/// Entry k of each of four rows.
#[inline(always)]
pub(crate) fn entries_of(rows: &[[u32; 64]; 4], k: usize) -> [u32; 4]
    requires { k < 64 }
    ensures { result ≡ entries rows.now k }
{
    [rows[0][k], rows[1][k], rows[2][k], rows[3][k]]
}

/// They are these now.
#[inline(always)]
pub(crate) fn set_entries(rows: &mut [[u32; 64]; 4], k: usize, row: &[u32; 4])
    requires { k < 64 }
    ensures same { entries rows.new k ≡ row.now }
    ensures others { (j : ℕ) → j ≢ k → entries rows.new j ≡ entries rows.old j }
{
    set_entry(rows, 0, k, row[0]);
    set_entry(rows, 1, k, row[1]);
    set_entry(rows, 2, k, row[2]);
    set_entry(rows, 3, k, row[3]);
}

/// Entry k of row r is this now.
#[inline(always)]
pub fn set_entry(rows: &mut [[u32; 64]; 4], r: usize, k: usize, value: u32)
    requires row { r < 4 }
    requires lane { k < 64 }
    ensures same { entries rows.new k ≡ slice_set (entries rows.old k) r value }
    ensures others { (j : ℕ) → j ≢ k → entries rows.new j ≡ entries rows.old j }
{
    set_in(&mut rows[r], k, value);
}

// Entry k of a row is this now.
#[inline(always)]
fn set_in(row: &mut [u32; 64], k: usize, value: u32)
    requires { k < 64 }
    ensures same { slice_index row.new k ≡ value }
    ensures others { (j : ℕ) → j ≢ k → slice_index row.new j ≡ slice_index row.old j }
{
    row[k] = value;
}
