//! The words that the table of a memory has when it is made.
ghost use Rattle.std.specs.Prelude.{◌≡◌, ◌+◌, ◌/◌, ◌<◌, ◌≤◌, ℕ, IfOk, length, slice_index, vec_len};
ghost use Rattle.row_bytes.specs.Cell.{cell_at};

use row_bytes::first_cell;
use std::alloc::{AllocError, Global};

/// The words of the table at first: so many that are 0, then the cells that spell these bytes, and then more that are 0.
pub fn initial_words(
    alloc: Global,
    bytes: &[u8],
    zeros: usize,
    behind: usize,
) -> Result<Vec<u64>, AllocError>
    requires zeros { zeros ≤ 5000 }
    requires behind { behind ≤ 16 }
    ensures long { IfOk result (λ words. vec_len words ≡ zeros + length bytes.now / 8 + behind) }
    ensures zeros { IfOk result (λ words. (i : ℕ) → i < zeros → slice_index words.items i ≡ 0) }
    ensures cells { IfOk result (λ words. (i : ℕ) → i < length bytes.now / 8 → slice_index words.items (zeros + i) ≡ cell_at bytes.now i) }
    ensures behind { IfOk result (λ words. (i : ℕ) → zeros + length bytes.now / 8 ≤ i → slice_index words.items i ≡ 0) }
    ensures bytes { (k : ℕ) → slice_index bytes.now k < 256 }
{
    let cells = bytes.len() / 8;
    let mut words = vec![in alloc; 0; zeros + cells + behind]?;
    for i in 0..cells {
        words[zeros + i] = first_cell(&bytes[8 * i..]);
    }
    Ok(words)
}
