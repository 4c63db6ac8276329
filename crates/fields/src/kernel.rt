// The work of the calls, with no tests of what the slices hold.
ghost use Rattle.std.specs.Prelude.{◌≡◌};
ghost use Rattle.fields.specs.Rescaled.{factor_with};

// `prepare` fills what depends on the degree alone, in a work slice of at least 8·L numbers: derive's lower factors at 2·L, the upper ones at
// 3·L, the diagonal's start values at 4·L. `partials` gives the potential and its derivatives of the field that stands in a prepared work
// slice, C at 0 and S at L; a and b are the Legendre tables.
pub use legendre::{evaluate as partials, prepare};

// (GM/GM')·(R/R')ⁿ for the GM and the radius that a field begins with.
#[tactic(auto, unfolding(crate::specs::Rescaled::factor_with, crate::specs::Rescaled::factor_of))]
pub fn factor(gm: f64, radius: f64, field: &[f64], n: usize) -> f64
    ensures { result ≡ factor_with gm radius field.now n }
{
    if field.len() >= 2 && n <= 180 {
        return field[0] / gm * numbers::power(field[1] / radius, n as u32);
    }
    0.0
}
