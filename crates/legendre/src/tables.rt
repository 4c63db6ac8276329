// Degrees and tables, each with what is known of it.
ghost use Rattle.std.specs.Prelude.{◌≡◌, ◌+◌, ◌*◌, ◌≤◌, length};
ghost use Rattle.laws.specs.Tables.{tri};

// A degree that tables have, and where its row begins in each.
#[derive(Clone, Copy)]
pub struct Degree {
    pub n: usize,
    pub start: usize,
    pub ghost small: { n ≤ 180 },
    pub ghost begins: { start ≡ tri n },
    pub ghost near: { start ≤ 16471 },
}

// The tables to a degree that rows are made of: the recursion's factors a and b, the derivative's, and the diagonal.
#[derive(Clone, Copy)]
pub struct Tables<'a> {
    pub last: Degree,
    pub a: &'a [f64],
    pub b: &'a [f64],
    pub lower: &'a [f64],
    pub upper: &'a [f64],
    pub heads: &'a [f64],
    pub ghost a_full: { length a.now ≡ tri (last.n + 1) },
    pub ghost b_full: { length b.now ≡ tri (last.n + 1) },
    pub ghost lower_full: { length lower.now ≡ tri (last.n + 1) },
    pub ghost upper_full: { length upper.now ≡ tri (last.n + 1) },
    pub ghost heads_full: { length heads.now ≡ last.n + 1 },
}

// What an evaluation is lent: the recursion's tables, and a work slice that is prepared for their degree.
#[derive(Clone, Copy)]
pub struct Lent<'a> {
    pub last: Degree,
    pub a: &'a [f64],
    pub b: &'a [f64],
    pub work: &'a [f64],
    pub ghost a_full: { length a.now ≡ tri (last.n + 1) },
    pub ghost b_full: { length b.now ≡ tri (last.n + 1) },
    pub ghost long: { 8 * tri (last.n + 1) ≤ length work.now },
}
