// Least squares by normal equations and Gauss-Jordan elimination with partial pivoting.
#![tactic(auto)]

mod equations;
pub mod kernel;

ghost use Rattle.std.specs.Prelude.{◌≡◌, [], ◌∷◌};
ghost use Rattle.slices.specs.Calls.{left};
ghost use Rattle.least_squares.specs.LeastSquares.{fitted};
ghost use Rattle.least_squares.specs.Calls.{up_to, refusal as refusal_of, least_squares_call};

use crate::equations::Design;
use slices::Refusal;

// What the coefficients give for a row: the sum of the products, as far as both reach.
#[tactic(auto, using(laws::specs::Sums::sum_more), unfolding(laws::specs::Sums::sum_to, crate::specs::LeastSquares::fitted))]
pub fn fitted(row: &[f64], beta: &[f64]) -> f64
    ensures { result ≡ fitted row.now beta.now }
{
    let n = row.len().min(beta.len());
    let mut s = 0.0;
    for j in 0..n {
        s = s + row[j] * beta[j];
    }
    s
}

// From 1 to n.
#[tactic(auto, unfolding(crate::specs::Calls::up_to))]
fn up_to(n: usize, k: usize) -> bool
    ensures { result ≡ up_to n k }
{
    1 <= k && k <= n
}

#[tactic(auto, unfolding(crate::specs::Calls::refusal))]
fn refusal(rows: &[f64], y: &[f64], p: usize, places: usize, misfits: usize) -> Result<(), Refusal>
    ensures { result ≡ refusal_of rows.now y.now p places misfits }
{
    slices::tested(up_to(15, p), Refusal::Count)?;
    slices::tested(up_to(100000, y.len()), Refusal::Count)?;
    slices::tested(rows.len() == y.len() * p, Refusal::Length)?;
    slices::tested(places == p, Refusal::Length)?;
    slices::tested(misfits == y.len(), Refusal::Length)?;
    slices::tested(slices::all_finite(rows), Refusal::Value)?;
    slices::tested(slices::all_finite(y), Refusal::Value)?;
    Ok(())
}

// Coefficients and residuals of the rows, p numbers each, on y.
#[tactic(auto, unfolding(crate::specs::Calls::least_squares_call))]
pub fn ols(
    rows: &[f64],
    y: &[f64],
    columns: usize,
    beta: &mut [f64],
    residuals: &mut [f64],
) -> Result<(), Refusal>
    ensures { left result (beta.new ∷ residuals.new ∷ []) [] ≡ least_squares_call rows.now y.now columns
        beta.old residuals.old }
{
    refusal(rows, y, columns, beta.len(), residuals.len())?;
    if !kernel::coefficients(rows, y, columns, beta) {
        slices::clear(beta);
        slices::clear(residuals);
        return Err(Refusal::Singular);
    }
    Design {
        rows,
        y,
        p: columns,
    }
    .residuals(beta, residuals);
    if slices::all_finite(beta) && slices::all_finite(residuals) {
        return Ok(());
    }
    slices::clear(beta);
    slices::clear(residuals);
    Err(Refusal::NotFinite)
}
