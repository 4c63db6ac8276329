// The model on lent slices, with no tests of what they hold.
ghost use Rattle.std.specs.Prelude.{◌≡◌, ℕ, ◌+◌, ◌*◌, ◌<◌, ◌≤◌, length, take, drop, ◌++◌, MatchOption};
ghost use Rattle.laws.specs.Floats.{◌⊕◌, ◌⊗◌};
ghost use Rattle.laws.specs.Tables.{tri, row, rows};
ghost use Rattle.finality.specs.Brackets.{covers as covers_of};
ghost use Rattle.inputs.specs.Inputs.{field_size};
ghost use Rattle.inputs.specs.Lent.{model_of};
ghost use Rattle.model.specs.Field.{gm, radius, cosines, sines};
ghost use Rattle.fields.specs.Rescaled.{factor_with};
ghost use Rattle.model.specs.Model.{bracket as bracket_of, blended, blend_of, field_at};
ghost use Rattle.model.specs.Calls.{Weighed, sized, FieldRoom, at_left};

// First field time ≤ t < last.
// kept: `times, t`: one list is asked at many times, so a struct of both would be made for each question and taken apart in its answer.
#[tactic(auto, using(crate::proofs::Times::covers_is, crate::proofs::Times::covers_none))]
pub fn covers(times: &[f64], t: f64) -> bool
    ensures { result ≡ covers_of times.now t }
{
    let n = times.len();
    0 < n && (times[0] <= t && t < times[n - 1])
}

// The last field at or before t, at most the last but one; 0 if there is none.
pub fn bracket(times: &[f64], t: f64) -> usize
    ensures { result ≡ bracket_of times.now t }
{
    let end = times.len().saturating_sub(2);
    for j in 0..end {
        if !(times[j + 1] <= t) {
            return j;
        }
    }
    end
}

// How far t is on the way from field j to the next.
pub fn weight(times: &[f64], t: f64, j: usize) -> f64
    ensures { Weighed times.now t j result }
{
    if times.len() <= j {
        return f64::NAN;
    }
    let next = j + 1;
    if times.len() <= next {
        return f64::NAN;
    }
    (t - times[j]) / (times[next] - times[j])
}

// What takes row n of an added field to the static field's GM and radius; none below degree 2, where nothing is added.
fn factor_from_two(field: &[f64], added: &[f64], n: usize) -> Option<f64>
    requires { 2 ≤ length field.now }
    ensures { MatchOption result (n < 2) (λ f. (2 ≤ n) × (f ≡ factor_with (gm field.now) (radius field.now) added.now n)) }
{
    if n < 2 {
        None
    } else {
        Some(fields::kernel::factor(field[0], field[1], added, n))
    }
}

fn with_added(c: f64, a: f64, factor: Option<f64>) -> f64
    ensures { MatchOption factor (result ≡ c) (λ f. result ≡ c ⊕ a ⊗ f) }
{
    match factor {
        Some(f) => c + a * f,
        None => c,
    }
}

// The coefficients of one kind, which begin at `start` in each field.
#[derive(Clone, Copy)]
pub(crate) struct Kind {
    pub degree: usize,
    pub start: usize,
    pub ghost within: { degree ≤ 180 },
    pub ghost after_two: { 2 ≤ start },
    pub ghost in_field: { start ≤ sines degree },
}

impl Kind {
    // Row n, which begins at k, of two added fields.
    fn blend_row(
        self,
        n: usize,
        k: usize,
        w: f64,
        field: &[f64],
        a: &[f64],
        b: &[f64],
        out: &mut [f64],
    )
        requires { (n ≤ self.degree) × (k ≡ tri n) × (self.start + (k + (n + 1)) ≤ length field.now)
            × (self.start + (k + (n + 1)) ≤ length a.now) × (self.start + (k + (n + 1)) ≤ length b.now)
            × (k + (n + 1) ≤ length out.old) }
        ensures { take (k + (n + 1)) out.new ≡ take k out.old ++ row
            (blended self.start w field.now a.now b.now n) (n + 1) }
    {
        let fa = factor_from_two(field, a, n);
        let fb = factor_from_two(field, b, n);
        for m in 0..n + 1 {
            let i = k + m;
            let p = self.start + i;
            let c = field[p];
            out[i] = (1.0 - w) * with_added(c, a[p], fa) + w * with_added(c, b[p], fb);
        }
    }

    fn blend_rows(self, w: f64, field: &[f64], a: &[f64], b: &[f64], out: &mut [f64])
        requires { (self.start + tri (self.degree + 1) ≤ length field.now) × (self.start + tri (self.degree + 1) ≤ length a.now)
            × (self.start + tri (self.degree + 1) ≤ length b.now) × (length out.old ≡ tri (self.degree + 1)) }
        ensures { out.new ≡ rows (blended self.start w field.now a.now b.now) (self.degree + 1) }
    {
        for n in 0..self.degree + 1 {
            self.blend_row(n, numbers::triangle(n), w, field, a, b, out);
        }
    }

    // The same from the fields end to end, of which j and the next are blended.
    pub(crate) fn blend(self, field: &[f64], added: &[f64], w: f64, j: usize, out: &mut [f64])
        requires { (length field.now ≡ field_size self.degree) × ((j + 2) * field_size self.degree ≤ length added.now)
            × (length out.old ≡ tri (self.degree + 1)) }
        ensures { out.new ≡ blend_of self.degree self.start field.now added.now w j }
    {
        let size = 2 + 2 * inputs::places(self.degree);
        let first = j * size;
        let next = first + size;
        let end = next + size;
        self.blend_rows(w, field, &added[first..next], &added[next..end], out);
    }
}

#[tactic(auto, unfolding(crate::specs::Calls::at_fits))]
fn at_fits(model: inputs::Model<'_>, out: usize) -> bool
    ensures { result ≡ sized (model_of model.entry) out }
{
    if 180 < model.degree {
        return false;
    }
    let l = inputs::places(model.degree);
    let size = 2 + 2 * l;
    let fields = model.field_times.len();
    ((model.static_field.len() == size && 2 <= fields) && fields <= model.added.len() / size)
        && 2 * l <= out
}

fn blend_both(degree: usize, field: &[f64], added: &[f64], w: f64, j: usize, out: &mut [f64])
    requires { (degree ≤ 180) × (length field.now ≡ field_size degree) × ((j + 2) * field_size degree ≤ length added.now)
        × (2 * tri (degree + 1) ≤ length out.old) }
    ensures { out.new ≡ (blend_of degree cosines field.now added.now w j ++ blend_of degree (sines degree)
        field.now added.now w j) ++ drop (2 * tri (degree + 1)) out.old }
{
    let l = inputs::places(degree);
    let end = 2 * l;
    let cosine = Kind { degree, start: 2 };
    let sine = Kind {
        degree,
        start: 2 + l,
    };
    cosine.blend(field, added, w, j, &mut out[0..l]);
    sine.blend(field, added, w, j, &mut out[l..end]);
}

fn field_at(model: inputs::Model<'_>, t: f64, out: &mut [f64])
    requires { FieldRoom (model_of model) (length out.old) }
    ensures { out.new ≡ field_at (model_of model.entry) t ++ drop (2 * tri (model.entry.degree + 1)) out.old }
{
    let j = bracket(model.field_times, t);
    let w = weight(model.field_times, t, j);
    blend_both(model.degree, model.static_field, model.added, w, j, out);
}

// The field at t, covered or not: the cosine coefficients and then the sine coefficients at the front of `out`.
// Nothing is done where the lengths are not those of the degree.
#[tactic(auto, unfolding(crate::specs::Calls::at_left))]
pub fn at(model: inputs::Model<'_>, t: f64, out: &mut [f64])
    ensures { out.new ≡ at_left (model_of model.entry) t out.old }
{
    if at_fits(model, out.len()) {
        field_at(model, t, out);
    }
}
