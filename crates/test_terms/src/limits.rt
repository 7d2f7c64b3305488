// The limits of sizes, as numbers.

ghost use Rattle.std.specs.Prelude.{◌≡◌, ◌^◌};
ghost use Rattle.fol_base.specs.declared.limits.TheConstants.{SIZE_LIMIT};
ghost use Rattle.kbo_order.specs.declared.limits.TheConstants.{COMPARED_SIZE_LIMIT};

/// The limit of sizes, and the one of sizes that are compared.
pub fn limit_examples()
    ensures size { SIZE_LIMIT ≡ 2 ^ 31 }
    ensures compared { COMPARED_SIZE_LIMIT ≡ 2 ^ 62 }
{}
