//! The two forms of a dependence that are claimed to be at least 0.

ghost use Rattle.std.specs.Prelude.{◌≡◌};
ghost use Rattle.farkas.specs.Claims.{target_factor, source_factor, bound_factor};

/// Which form is claimed to be at least 0 at the points of a dependence.
#[derive(Clone, Copy)]
pub enum Claim {
    /// How much later than the source the target comes: `phi_T(t) - phi_S(s)`.
    Legality,
    /// What a bound of that leaves: `u.n + w - (phi_T(t) - phi_S(s))`.
    Bounding,
}

impl Claim {
    /// With which factor the target's row stands in the form.
    pub fn target(self) -> i128
        ensures { result ≡ target_factor self }
    {
        match self {
            Claim::Legality => 1,
            Claim::Bounding => -1,
        }
    }

    /// With which factor the source's row stands in the form.
    pub fn source(self) -> i128
        ensures { result ≡ source_factor self }
    {
        match self {
            Claim::Legality => -1,
            Claim::Bounding => 1,
        }
    }

    /// With which factor the bound stands in the form.
    pub fn bound(self) -> i128
        ensures { result ≡ bound_factor self }
    {
        match self {
            Claim::Legality => 0,
            Claim::Bounding => 1,
        }
    }
}
