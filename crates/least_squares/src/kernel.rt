// Least squares without residuals, with no tests of what the slices hold.
ghost use Rattle.std.specs.Prelude.{◌≡◌, length};
ghost use Rattle.least_squares.specs.Kernel.{shape_fits, solvable_for, coefficients_of, estimate, estimate15};

use crate::equations::Design;

// kept: here and in the public calls `rows, y` are lent one by one, as document 01 has them: a `Design` is made where this has said that they fit.
// Whether rows has p columns, at most 15, for each of y, and there is a place for each coefficient.
#[tactic(auto, unfolding(crate::specs::Kernel::shape_fits))]
fn shape(rows: &[f64], y: &[f64], p: usize, nb: usize) -> bool
    ensures { result ≡ shape_fits rows.now y.now p nb }
{
    p <= 15 && rows.len() == y.len() * p && nb == p
}

// The kernel without residuals: whether there are coefficients, and beta holds them then, and what it held otherwise.
// kept: a bool beside a lent slice, since the caller lends the places and p is known only at the call.
#[tactic(auto, unfolding(crate::specs::Kernel::solvable_for, crate::specs::Kernel::coefficients_of))]
pub fn coefficients(rows: &[f64], y: &[f64], p: usize, beta: &mut [f64]) -> bool
    ensures { (result ≡ solvable_for rows.now y.now p (length beta.old))
        × (beta.new ≡ coefficients_of rows.now y.now p beta.old) }
{
    shape(rows, y, p, beta.len()) && Design { rows, y, p }.solve(beta)
}

// The same for a number of columns that is known beforehand.
pub fn estimate<const P: usize>(rows: &[f64], y: &[f64]) -> Option<[f64; P]>
    ensures { result ≡ estimate rows.now y.now P }
{
    let mut beta = [0.0; P];
    if coefficients(rows, y, P, &mut beta) {
        Some(beta)
    } else {
        None
    }
}

// Fifteen coefficients, of at most 100,000 rows.
#[tactic(auto, unfolding(crate::specs::Kernel::estimate15, crate::specs::Kernel::estimate, crate::specs::Kernel::solvable_for, crate::specs::Kernel::shape_fits, crate::specs::Kernel::shaped15))]
pub fn fifteen(rows: &[f64], y: &[f64]) -> Option<[f64; 15]>
    ensures { result ≡ estimate15 rows.now y.now }
{
    if y.len() <= 100000 {
        estimate(rows, y)
    } else {
        None
    }
}
