//! What a price rule is.
ghost use Rattle.std.specs.Prelude.{◌≡◌, ℕ, ℤ};
ghost use Rattle.shots.specs.Prices.{Fair};

/// What a miss costs, by the shot's stuff: for each stuff a late price and an early price.
pub trait PriceRule {
    // The late price and the early price of each stuff.
    ghost tariff: { Self → ℤ → ℕ × ℕ };

    // Both are 1 to 20, and 1 and 1 for what is no stuff.
    ghost fair: { (rule : Self) → Fair (tariff rule) };

    /// The late price and the early price of a stuff, together.
    // a pair, by the rules of the product, and no struct: each user takes it apart at once
    fn prices(&self, stuff: i32) -> (u8, u8)
        ensures { result ≡ tariff self.now stuff };
}
