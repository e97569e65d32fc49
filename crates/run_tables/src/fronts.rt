//! The fronts of tables, rows and marks.
// The tables are the caller's, lent whole, and a plan uses their fronts: so a count stands beside a table.

ghost use Rattle.std.specs.Prelude.{◌≡◌, ◌+◌, ◌*◌, ◌≤◌, length};
ghost use Rattle.run_model.specs.Tables.{cleared, row_laid};
ghost use Rattle.run_model.specs.Model.{none_missing};

/// Sets the first `n` entries of a table.
pub fn clear<T: Copy>(table: &mut [T], n: usize, z: T)
    requires { n ≤ length table.old }
    ensures after { table.new ≡ cleared n z table.old }
{
    // `fill` asks for a clone that cannot fail, and `Copy` does not say that of `T`; of `fill_with(|| z)` the proof did not close,
    // that the closure holds the same `z` at each call.
    for entry in &mut table[..n] {
        *entry = z;
    }
}

/// Lays the bytes of row `k`, of rows that are all as long; every other row is as it was.
pub fn lay_row(rows: &mut [u8], k: usize, bytes: &[u8])
    requires room { k * length bytes.now + length bytes.now ≤ length rows.old }
    ensures after { rows.new ≡ row_laid k (length bytes.now) bytes.now rows.old }
{
    let at = k * bytes.len();
    rows[at..at + bytes.len()].copy_from_slice(bytes);
}

/// Whether none of the first `n` marks is 0.
pub fn none_missing(marks: &[u8], n: usize) -> bool
    requires { n ≤ length marks.now }
    ensures value { result ≡ none_missing n marks.now }
{
    let mut all = true;
    // Each is looked at, many at once: `all` of the iterator leaves off at the first that is 0, but looks at one at a time, and takes twelve
    // times as long where none is.
    for mark in &marks[..n] {
        all &= *mark != 0;
    }
    all
}
