//! Hashes of coefficients.

use crate::signs::{Signs, next_column};

/// A number that mostly differs where coefficients do, which have these signs. The first cell is the constant, and is left out.
pub fn hash(cells: &[i64], signs: &Signs) -> u64 {
    let mut mixed: u64 = signs.positive ^ signs.negative.wrapping_mul(0xC2B2_AE3D_27D4_EB4F);
    let columns = signs.positive | signs.negative;
    let mut column = next_column(columns, 0);
    'columns: while column < 64 {
        mixed = mixed
            .wrapping_mul(0x9E37_79B9_7F4A_7C15)
            .wrapping_add(size_at(cells, column));
        column = next_column(columns, column + 1);
    }
    mixed ^= mixed >> 32;
    mixed = mixed.wrapping_mul(0x9E37_79B9_7F4A_7C15);
    mixed ^ (mixed >> 29)
}

// The magnitude of the coefficient of a column.
fn size_at(cells: &[i64], column: usize) -> u64 {
    match cells.get(column.saturating_add(1)) {
        Some(cell) => cell.unsigned_abs(),
        None => 0,
    }
}
