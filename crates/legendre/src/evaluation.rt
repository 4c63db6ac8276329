// What the rows of an evaluation are made from, each with what is known of it.
ghost use Rattle.std.specs.Prelude.{◌≡◌, ◌+◌, ◌≤◌, ℕ, length, get_or};
ghost use Rattle.std.specs.Float.{nan};
ghost use Rattle.laws.specs.Tables.{tri};
ghost use Rattle.legendre.specs.Legendre.{unscale};
ghost use Rattle.legendre.specs.Sums.{cosines, sines};

use crate::tables::Tables;

// The Legendre functions at a latitude, which is given by its sine and cosine: `powers` has cos^m / 1e-280 by m.
#[derive(Clone, Copy)]
pub struct Latitude<'a, 'b> {
    pub tables: Tables<'a>,
    pub sine: f64,
    pub cosine: f64,
    pub powers: &'b [f64; 184],
    pub ghost has_powers: { (m : ℕ) → m ≤ tables.last.n → get_or powers.now m nan ≡ unscale cosine m },
}

// The terms of a series at a place: the ratio of the field's radius to the distance, the longitude, cosine and sine of its
// multiples (x and y, by m), the coefficients.
#[derive(Clone, Copy)]
pub struct Terms<'a, 'b, 'c> {
    pub latitude: Latitude<'a, 'b>,
    pub ratio: f64,
    pub lon: f64,
    pub x: &'c [f64; 184],
    pub y: &'c [f64; 184],
    pub c: &'c [f64],
    pub s: &'c [f64],
    pub ghost has_cosines: { (m : ℕ) → m ≤ latitude.tables.last.n → get_or x.now m nan ≡ cosines lon m },
    pub ghost has_sines: { (m : ℕ) → m ≤ latitude.tables.last.n → get_or y.now m nan ≡ sines lon m },
    pub ghost c_full: { length c.now ≡ tri (latitude.tables.last.n + 1) },
    pub ghost s_full: { length s.now ≡ tri (latitude.tables.last.n + 1) },
}
