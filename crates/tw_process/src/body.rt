//! What an event carries.

ghost use Rattle.std.specs.Prelude.{◌≡◌};
ghost use Rattle.std.specs.declared.cmp.Ordering.TheVariants.{Equal};
ghost use Rattle.tw_process.specs.Exact.{exact_unit};
ghost use Rattle.std.proofs.lemmas.Map.Lookups.{exact_unsigned};

/// What an event carries beside its time, receiver, sender and number: plain data whose order tells two values apart.
pub trait Body: Ord + Copy {
    /// It does nothing. It stands before the law, so that this is one.
    fn is_plain(&self) {}

    /// Bodies that compare alike are one.
    ghost exact: { (a b : Self) → Self.cmp a b ≡ Equal → a ≡ b };
}

impl Body for () {
    ghost exact = { exact_unit };
}

impl Body for u32 {
    ghost exact = { exact_unsigned };
}

impl Body for u64 {
    ghost exact = { exact_unsigned };
}
