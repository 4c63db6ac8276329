// Normal gravity of the Geodetic Reference System 1980 (H. Moritz, Geodetic Reference System 1980, Journal of Geodesy 74, 2000): the field of its level
// ellipsoid and its rotation, through `gravity` and `fictitious`.
ghost use Rattle.std.specs.Prelude.{◌≡◌};
ghost use Rattle.published.specs.Shown.{magnitude_of_sum};

use crate::table::{Heading, Tally};
use slices::Refusal;
use vectors::Vector;

// GM in m^3/s^2, the semi-axes in m, and J2, J4, J6, J8. Its rotation, 7.292115e-5 rad/s, is the engine's own.
const GM: f64 = 3.986_005e14;

const A: f64 = 6_378_137.0;

const B: f64 = 6_356_752.3141;

const J2: f64 = 1.082_63e-3;

const J4: f64 = -2.370_912_22e-6;

const J6: f64 = 6.083_47e-9;

const J8: f64 = -1.427e-11;

// Published to ten decimals, m/s^2; the tenth of a millimetre to which b is published moves gravity by 3e-10.
const AT_EQUATOR: f64 = 9.780_326_771_5;

const AT_POLE: f64 = 9.832_186_368_5;

const ACCURACY: f64 = 1e-9;

// C(n, 0) of Jn, fully normalised.
fn zonal(j: f64, n: f64) -> f64 {
    -j / root::root(2.0 * n + 1.0)
}

// The field of degree 8: GM, radius, C and S. C(n, 0) stands at n (n + 1) / 2.
fn grs80() -> [f64; 92] {
    let mut field = [0.0; 92];
    field[0] = GM;
    field[1] = A;
    field[2] = 1.0;
    field[2 + 3] = zonal(J2, 2.0);
    field[2 + 10] = zonal(J4, 4.0);
    field[2 + 21] = zonal(J6, 6.0);
    field[2 + 36] = zonal(J8, 8.0);
    field
}

fn gravity(x: Vector) -> Result<Vector, Refusal> {
    let field = grs80();
    let mut a = [0.0; 45];
    let mut b = [0.0; 45];
    let mut scratch = [0.0; 360];
    fields::legendre_new(8, &mut a, &mut b, &mut scratch)?;
    forces::gravity(8, &field, &a, &b, x, &mut scratch)
}

// The magnitude of the sum of two accelerations.
fn sum(a: Result<Vector, Refusal>, b: Result<Vector, Refusal>) -> Result<f64, Refusal>
    ensures { result ≡ magnitude_of_sum a b }
{
    Ok(vectors::norm(vectors::add(a?, b?)))
}

// Of a body at rest on the rotating Earth.
fn normal_gravity(x: f64, y: f64, z: f64) -> Result<f64, Refusal> {
    let place = Vector { x, y, z };
    let rest = Vector {
        x: 0.0,
        y: 0.0,
        z: 0.0,
    };
    sum(gravity(place), forces::fictitious(place, rest))
}

pub fn group(t: Tally) -> Tally {
    crate::text::say(Heading("Normal gravity of the reference system GRS 80 (Moritz 2000), m/s^2"));
    let equator = crate::table::row(
        t,
        "at the equator",
        10,
        AT_EQUATOR,
        normal_gravity(A, 0.0, 0.0),
        ACCURACY,
    );
    crate::table::row(
        equator,
        "at the pole",
        10,
        AT_POLE,
        normal_gravity(0.0, 0.0, B),
        ACCURACY,
    )
}
