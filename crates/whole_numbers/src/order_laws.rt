//! The order of the whole numbers and their products: monotony, signs, cancellation.
ghost use Rattle.std.specs.Prelude.{◌≡◌, ℤ, pos, ◌-ℤ◌, ◌*ℤ◌, ◌≤ℤ◌, ◌<ℤ◌};

/// Multiplying by a number keeps the order where it is not negative, and turns it where it is not
/// positive.
#[tactic(auto, using(crate::proofs::Order::order_laws))]
pub fn products_keep_the_order()
    ensures kept { (a b c : ℤ) → a ≤ℤ b → pos 0 ≤ℤ c → (a *ℤ c) ≤ℤ (b *ℤ c) }
    ensures strict { (a b c : ℤ) → a <ℤ b → pos 0 <ℤ c → (a *ℤ c) <ℤ (b *ℤ c) }
    ensures turned { (a b c : ℤ) → a ≤ℤ b → c ≤ℤ pos 0 → (b *ℤ c) ≤ℤ (a *ℤ c) }
{}

/// A positive factor on both sides cancels.
#[tactic(auto, using(crate::proofs::Order::cancel_laws))]
pub fn positive_factors_cancel()
    ensures at_most { (a b c : ℤ) → pos 0 <ℤ c → (a *ℤ c) ≤ℤ (b *ℤ c) → a ≤ℤ b }
    ensures below { (a b c : ℤ) → pos 0 <ℤ c → (a *ℤ c) <ℤ (b *ℤ c) → a <ℤ b }
    ensures equal { (a b c : ℤ) → pos 0 <ℤ c → a *ℤ c ≡ b *ℤ c → a ≡ b }
{}

/// Only 0 times `d` lies strictly between `-d` and `d`.
#[tactic(auto, using(crate::proofs::Order::factor_laws))]
pub fn multiples_below_a_divisor()
    ensures { (d w : ℤ) → pos 0 <ℤ d → (pos 0 -ℤ d) <ℤ (d *ℤ w) → (d *ℤ w) <ℤ d → w ≡ pos 0 }
{}
