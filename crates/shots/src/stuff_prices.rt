//! A table of prices by stuff.
ghost use Rattle.std.specs.Prelude.{ℕ, ◌≤◌, slice_index_or};

/// The late price and the early price of each of the sixteen stuffs.
#[derive(Clone, Copy, PartialEq, Eq, Debug)]
pub struct StuffPrices {
    pub(crate) table: [(u8, u8); 16],
    ghost late: { (m : ℕ) → (1 ≤ (slice_index_or table m (1, 1)).0) × ((slice_index_or table m (1, 1)).0 ≤ 20) },
    ghost early: { (m : ℕ) → (1 ≤ (slice_index_or table m (1, 1)).1) × ((slice_index_or table m (1, 1)).1 ≤ 20) },
}
