// The normal equations and their elimination.
ghost use Rattle.std.specs.Prelude.{◌≡◌, true, ◌+◌, ◌*◌, ◌-◌, ◌≤◌, ◌<◌, length};
ghost use Rattle.laws.specs.Tables.{row};
ghost use Rattle.least_squares.specs.Elimination.{reaches as reaches_of, largest, too_small};
ghost use Rattle.least_squares.specs.Flat.{view, flatten, swapped_to, reduced_to, eliminated_to, stage_in, fine_in, equations};
ghost use Rattle.least_squares.specs.LeastSquares.{value_at, normal_at, coefficient_at, solvable, residuals_of};
ghost use Rattle.least_squares.specs.Kernel.{solved_else};

use numbers::magnitude;

// Rows of p numbers, end to end, and an observation for each.
#[derive(Clone, Copy)]
pub struct Design<'a> {
    pub rows: &'a [f64],
    pub y: &'a [f64],
    pub p: usize,
    ghost few: { p ≤ 15 },
    ghost full: { length rows.now ≡ length y.now * p },
}

// The augmented matrix of p equations: row i, column j at i * 16 + j, the right-hand side in column p. One array, as the definitions speak of one list.
#[derive(Drop)]
pub struct Equations {
    pub a: [f64; 240],
    pub p: usize,
    ghost few: { p ≤ 15 },
    ghost long: { length a ≡ 240 },
}

// Whether x counts as at least as large as b.
#[tactic(auto, unfolding(crate::specs::Elimination::reaches))]
fn reaches(x: f64, b: f64) -> bool
    ensures { result ≡ reaches_of x b }
{
    x != x || (!(b != b) && b <= x)
}

// Whether a pivot is refused.
fn too_small(x: f64) -> bool
    ensures { result ≡ too_small x }
{
    magnitude(x) < 1e-12
}

impl<'a> Design<'a> {
    #[tactic(auto, unfolding(crate::specs::LeastSquares::value_at))]
    fn value(self, r: usize, j: usize) -> f64
        requires { (r < length self.y.now) × (j ≤ self.p) }
        ensures { result ≡ value_at self.entry.rows.now self.entry.y.now self.entry.p r j }
    {
        if j < self.p {
            self.rows[r * self.p + j]
        } else {
            self.y[r]
        }
    }

    #[tactic(auto, using(laws::specs::Sums::sum_more), unfolding(laws::specs::Sums::sum_to, crate::specs::LeastSquares::normal_at))]
    fn entry(self, i: usize, j: usize) -> f64
        requires { (i ≤ self.p) × (j ≤ self.p) }
        ensures { result ≡ normal_at self.entry.rows.now self.entry.y.now self.entry.p i j }
    {
        let mut s = 0.0;
        for r in 0..self.y.len() {
            s = s + self.value(r, i) * self.value(r, j);
        }
        s
    }

    pub fn equations(self) -> Equations
        ensures { (result.a ≡ equations self.entry.rows.now self.entry.y.now self.entry.p) × (result.p ≡ self.entry.p) }
    {
        let mut a = [0.0; 240];
        let w = self.p + 1;
        for i in 0..self.p {
            for j in 0..w {
                a[i * 16 + j] = self.entry(i, j);
            }
        }
        Equations { a, p: self.p }
    }

    // Whether there are coefficients. They go to beta, which stays otherwise.
    pub fn solve(self, beta: &mut [f64]) -> bool
        requires { length beta.old ≡ self.p }
        ensures { (result ≡ solvable self.entry.rows.now self.entry.y.now self.entry.p)
            × (beta.new ≡ solved_else self.entry.rows.now self.entry.y.now self.entry.p beta.old) }
    {
        let mut equations = self.equations();
        let solved = equations.solve();
        if solved {
            equations.solution(beta);
        }
        solved
    }

    // Each observation less what the coefficients give for its row.
    pub fn residuals(self, beta: &[f64], residuals: &mut [f64])
        requires { (length beta.now ≡ self.p) × (length residuals.old ≡ length self.y.now) }
        ensures { residuals.new ≡ residuals_of self.entry.rows.now self.entry.y.now self.entry.p beta.now }
    {
        for r in 0..self.y.len() {
            let at = r * self.p;
            residuals[r] = self.y[r] - crate::fitted(&self.rows[at..at + self.p], beta);
        }
    }
}

impl Equations {
    fn pivot(&self, c: usize) -> usize
        requires { c < self.now.p }
        ensures { (result ≡ largest (view self.now.a) c (self.now.p - (c + 1))) × (result < self.now.p) }
    {
        let mut best = c;
        for i in c + 1..self.p {
            let x = magnitude(self.a[i * 16 + c]);
            let b = magnitude(self.a[best * 16 + c]);
            if reaches(x, b) {
                best = i;
            }
        }
        best
    }

    // kept: `c < self.old.p` bounds an index, which `solve` counts: a struct of both would be built anew for each call.
    fn swap_rows(&mut self, c: usize, q: usize)
        requires { (c < self.old.p) × (q < self.old.p) }
        ensures { (self.new.a ≡ flatten (swapped_to c q (self.old.p + 1) (view self.old.a))) × (self.new.p ≡ self.old.p) }
    {
        let w = self.p + 1;
        for k in 0..w {
            self.a.swap(c * 16 + k, q * 16 + k);
        }
    }

    fn reduce_row(&mut self, c: usize, i: usize)
        requires { (c < self.old.p) × (i < self.old.p) × (i ≡ c → ⊥) }
        ensures { (self.new.a ≡ flatten (reduced_to c i (self.old.p + 1) (view self.old.a))) × (self.new.p ≡ self.old.p) }
    {
        let f = self.a[i * 16 + c] / self.a[c * 16 + c];
        let w = self.p + 1;
        for k in 0..w {
            let v = self.a[i * 16 + k] - f * self.a[c * 16 + k];
            self.a[i * 16 + k] = v;
        }
    }

    fn eliminate(&mut self, c: usize)
        requires { c < self.old.p }
        ensures { (self.new.a ≡ flatten (eliminated_to c self.old.p (self.old.p + 1) (view self.old.a))) × (self.new.p ≡ self.old.p) }
    {
        for i in 0..self.p {
            if i != c {
                self.reduce_row(c, i);
            }
        }
    }

    // Whether every pivot was large enough.
    pub fn solve(&mut self) -> bool
        ensures { (result ≡ fine_in self.old.p self.old.a self.old.p)
            × (result ≡ true → self.new.a ≡ stage_in self.old.p self.old.a self.old.p) × (self.new.p ≡ self.old.p) }
    {
        for c in 0..self.p {
            let q = self.pivot(c);
            if too_small(self.a[q * 16 + c]) {
                return false;
            }
            self.swap_rows(c, q);
            self.eliminate(c);
        }
        true
    }

    // What the last stage gives for each coefficient.
    pub fn solution(&self, beta: &mut [f64])
        requires { length beta.old ≡ self.now.p }
        ensures { beta.new ≡ row (coefficient_at (view self.now.a) self.now.p) self.now.p }
    {
        for i in 0..self.p {
            beta[i] = self.a[i * 16 + self.p] / self.a[i * 16 + i];
        }
    }
}
