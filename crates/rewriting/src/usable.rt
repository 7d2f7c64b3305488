// Which clauses may be used for another one: those that aren't left out, and whose assertions are among its own (`are_among` of `fol_base`).

ghost use Rattle.std.specs.Prelude.{◌≡◌};
ghost use Rattle.rewriting.specs.Units.{is_kept};

/// Whether a number isn't the one that is left out.
pub fn is_kept(left_out: Option<u32>, number: u64) -> bool
    ensures { result ≡ is_kept left_out number }
{
    match left_out {
        None => true,
        Some(out) => number != u64::from(out),
    }
}
