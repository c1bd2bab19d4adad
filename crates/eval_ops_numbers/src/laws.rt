//! Laws of arithmetic. Each function here computes nothing: what it promises is the law.

ghost use Rattle.std.specs.Prelude.{◌≡◌, ◌≢◌, ◌*◌, ◌<◌, ◌≤◌, ℤ, pos, ◌+ℤ◌, ◌*ℤ◌, ◌<ℤ◌, ◌≤ℤ◌, neg_ℤ, unsigned_abs};
ghost use Rattle.base_data.specs.declared.op.names.TheConstants as names;
ghost use Rattle.eval_prims.specs.Numbers.{quotient};

/// `div` and `mod` (R6RS 11.7.3.1): the quotient times the divisor and the remainder make the number,
/// and the remainder lies from 0 to below the divisor's size.
pub fn div_and_mod()
    ensures whole { (x d : ℤ) → d ≢ pos 0 → quotient names.DIV x d *ℤ d +ℤ quotient names.MOD x d ≡ x }
    ensures least { (x d : ℤ) → d ≢ pos 0 → pos 0 ≤ℤ (quotient names.MOD x d) }
    ensures below { (x d : ℤ) → d ≢ pos 0 → (quotient names.MOD x d) <ℤ (pos (unsigned_abs d)) }
{}

/// `div0` and `mod0`: the same, and the remainder lies from minus half of the divisor's size to below
/// half of it.
pub fn div0_and_mod0()
    ensures whole { (x d : ℤ) → d ≢ pos 0 → quotient names.DIV0 x d *ℤ d +ℤ quotient names.MOD0 x d ≡ x }
    ensures least { (x d : ℤ) → d ≢ pos 0 → neg_ℤ (pos (unsigned_abs d)) ≤ℤ (pos 2 *ℤ quotient names.MOD0 x d) }
    ensures below { (x d : ℤ) → d ≢ pos 0 → (pos 2 *ℤ quotient names.MOD0 x d) <ℤ pos (unsigned_abs d) }
{}
