// Module 1 of document 01, fields: the public calls. The crate `legendre` and `kernel` do the work.
#![tactic(auto)]

pub mod kernel;

ghost use Rattle.std.specs.Prelude.{◌≡◌, [], ◌∷◌, ◌++◌, ℕ, ◌+◌, ◌*◌, ◌≤◌, ◌<◌, cond, Ok, Err, length, take};
ghost use Rattle.laws.specs.Checks.{degree_fine};
ghost use Rattle.laws.specs.Tables.{tri, row, rows};
ghost use Rattle.slices.specs.Calls.{left};
ghost use Rattle.slices.specs.declared.refusal.Refusal.TheVariants.{Degree};
ghost use Rattle.legendre.specs.Field.{size, Fits};
ghost use Rattle.fields.specs.Rescaled.{rescaled_at};
ghost use Rattle.fields.specs.Calls.{index_of, finite_partials, finite_neu, acceleration_call, two_tables, field_and, four_tables};
ghost use Rattle.fields.specs.Calls.{refusal_of, unfit, handed_two, handed_one, new_call, rescaled_call, compute_call, derive_call};
ghost use Rattle.fields.specs.Calls.{judged_partials, place_fine, partials_of_field, untested_call, partials_call};

use legendre;
use numbers;
use slices;
use slices::Refusal;

#[derive(Clone, Copy)]
pub struct NorthEastUp {
    pub north: f64,
    pub east: f64,
    pub up: f64,
}

// The place of degree n and order m in a triangular table.
#[tactic(auto, unfolding(crate::specs::Calls::index_of))]
pub fn idx(n: usize, m: usize) -> Result<usize, Refusal>
    ensures { result ≡ index_of n m }
{
    if m <= n && n <= 180 {
        return Ok(numbers::triangle(n) + m);
    }
    Err(Refusal::Count)
}

// ---- what is refused

// L, for a degree within its bounds.
fn size_of(degree: usize) -> Result<usize, Refusal>
    ensures value { result ≡ cond (degree_fine degree) (Ok (size degree)) (Err Degree) }
    ensures small { (l : ℕ) → result ≡ Ok l → l ≤ 16471 }
{
    if 2 <= degree && degree <= 180 {
        return Ok(numbers::triangle(degree + 1));
    }
    Err(Refusal::Degree)
}

fn two_tables(l: usize, x: usize, y: usize, scratch: usize) -> bool
    requires { l ≤ 16471 }
    ensures { result ≡ two_tables l x y scratch }
{
    x == l && (y == l && 8 * l <= scratch)
}

fn verdict(shape: bool, values: bool) -> Result<(), Refusal>
    ensures { result ≡ unfit shape values }
{
    slices::tested(shape, Refusal::Length)?;
    slices::tested(values, Refusal::Value)
}

fn tables_refusal(
    degree: usize,
    x: usize,
    y: usize,
    scratch: usize,
    values: bool,
) -> Result<(), Refusal>
    ensures { result ≡ refusal_of degree (two_tables (size degree) x y scratch) values }
{
    let l = size_of(degree)?;
    verdict(two_tables(l, x, y, scratch), values)
}

// Those of a call on a field and two tables.
fn field_refusal(
    degree: usize,
    field: usize,
    x: usize,
    y: usize,
    scratch: usize,
    values: bool,
) -> Result<(), Refusal>
    ensures { result ≡ refusal_of degree (field_and (size degree) field x y scratch) values }
{
    let l = size_of(degree)?;
    let shape = field == 2 + 2 * l && two_tables(l, x, y, scratch);
    verdict(shape, values)
}

fn compute_refusal(
    degree: usize,
    a: usize,
    b: usize,
    p: usize,
    dp: usize,
    scratch: usize,
    values: bool,
) -> Result<(), Refusal>
    ensures { result ≡ refusal_of degree (four_tables (size degree) a b p dp scratch) values }
{
    let l = size_of(degree)?;
    let shape = two_tables(l, a, b, scratch) && two_tables(l, p, dp, scratch);
    verdict(shape, values)
}

// ---- what is handed out

// Handed out where finite, else refused and cleared.
pub fn hand_two(x: &mut [f64], y: &mut [f64]) -> Result<(), Refusal>
    ensures { left result (x.new ∷ y.new ∷ []) [] ≡ handed_two x.old y.old }
{
    if slices::all_finite(&x[..]) && slices::all_finite(&y[..]) {
        return Ok(());
    }
    slices::clear(x);
    slices::clear(y);
    Err(Refusal::NotFinite)
}

fn hand_one(x: &mut [f64]) -> Result<(), Refusal>
    ensures { left result (x.new ∷ []) [] ≡ handed_one x.old }
{
    if slices::all_finite(&x[..]) {
        return Ok(());
    }
    slices::clear(x);
    Err(Refusal::NotFinite)
}

fn finite_partials(p: legendre::Partials) -> bool
    ensures { result ≡ finite_partials p }
{
    numbers::is_finite(p.v)
        && (numbers::is_finite(p.dr) && (numbers::is_finite(p.dlat) && numbers::is_finite(p.dlon)))
}

fn finite_neu(a: NorthEastUp) -> bool
    ensures { result ≡ finite_neu a }
{
    numbers::is_finite(a.north) && (numbers::is_finite(a.east) && numbers::is_finite(a.up))
}

pub fn judged(z: legendre::Partials) -> Result<legendre::Partials, Refusal>
    ensures { result ≡ judged_partials z }
{
    slices::tested(finite_partials(z), Refusal::NotFinite)?;
    Ok(z)
}

// ---- the calls

// The recursion's tables a and b.
pub fn legendre_new(
    degree: usize,
    a: &mut [f64],
    b: &mut [f64],
    scratch: &mut [f64],
) -> Result<(), Refusal>
    ensures { left result (a.new ∷ b.new ∷ []) scratch.new ≡ new_call degree a.old b.old
        scratch.old }
{
    tables_refusal(degree, a.len(), b.len(), scratch.len(), true)?;
    legendre::tabulate_a(degree, a);
    legendre::tabulate_b(degree, b);
    slices::clear(scratch);
    hand_two(a, b)
}

// A field, and the GM and the radius that it is rescaled to.
#[derive(Clone, Copy)]
struct Rescaling<'a> {
    field: &'a [f64],
    gm: f64,
    radius: f64,
}

// Row n of one kind of coefficients, which begins at `start` in the field; the row begins at k.
fn rescaled_row(given: &Rescaling<'_>, n: usize, k: usize, start: usize, out: &mut [f64])
    requires { (n ≤ 180) × (k ≡ tri n) × (2 ≤ start) × (start + (k + (n + 1)) ≤ length given.now.field.now) × (k + (n + 1) ≤ length out.old) }
    ensures { take (k + (n + 1)) out.new ≡ take k out.old ++ row (rescaled_at start given.now.gm given.now.radius given.now.field.now n) (n + 1) }
{
    let field = given.field;
    let f = kernel::factor(given.gm, given.radius, field, n);
    for m in 0..n + 1 {
        let i = k + m;
        out[i] = field[start + i] * f;
    }
}

fn rescaled_rows(given: &Rescaling<'_>, degree: usize, start: usize, out: &mut [f64])
    requires { (degree ≤ 180) × (2 ≤ start) × (start + size degree ≤ length given.now.field.now) × (length out.old ≡ size degree) }
    ensures { out.new ≡ rows (rescaled_at start given.now.gm given.now.radius given.now.field.now) (degree + 1) }
{
    for n in 0..degree + 1 {
        rescaled_row(given, n, numbers::triangle(n), start, out);
    }
}

fn rescaled_both(
    given: &Rescaling<'_>,
    degree: usize,
    cosines: &mut [f64],
    sines: &mut [f64],
) -> Result<(), Refusal>
    requires { (degree ≤ 180) × (length given.now.field.now ≡ 2 + 2 * size degree) × (length cosines.old ≡ size degree) × (length sines.old ≡ size degree) }
    ensures { left result (cosines.new ∷ sines.new ∷ []) [] ≡ handed_two (rows (rescaled_at 2 given.now.gm given.now.radius given.now.field.now) (degree + 1))
        (rows (rescaled_at (2 + size degree) given.now.gm given.now.radius given.now.field.now) (degree + 1)) }
{
    let start = 2 + numbers::triangle(degree + 1);
    rescaled_rows(given, degree, 2, cosines);
    rescaled_rows(given, degree, start, sines);
    hand_two(cosines, sines)
}

// The field's coefficients to another GM and radius.
pub fn rescaled(
    degree: usize,
    field: &[f64],
    gm: f64,
    radius: f64,
    cosines: &mut [f64],
    sines: &mut [f64],
    scratch: &mut [f64],
) -> Result<(), Refusal>
    ensures { left result (cosines.new ∷ sines.new ∷ []) scratch.new ≡ rescaled_call degree field.now gm radius
        cosines.old sines.old scratch.old }
{
    let values = slices::all_finite(field)
        && (numbers::is_finite(gm) && numbers::is_finite(radius));
    field_refusal(
        degree,
        field.len(),
        cosines.len(),
        sines.len(),
        scratch.len(),
        values,
    )?;
    slices::clear(scratch);
    let given = Rescaling { field, gm, radius };
    rescaled_both(&given, degree, cosines, sines)
}

// The derivative of a table by latitude.
pub fn derive(degree: usize, p: &[f64], dp: &mut [f64], scratch: &mut [f64]) -> Result<(), Refusal>
    ensures { left result (dp.new ∷ []) scratch.new ≡ derive_call degree p.now dp.old scratch.old }
{
    tables_refusal(
        degree,
        p.len(),
        dp.len(),
        scratch.len(),
        slices::all_finite(p),
    )?;
    legendre::prepare(degree, scratch);
    legendre::derive(degree, p, &scratch[..], dp);
    slices::clear(scratch);
    hand_one(dp)
}

// The Legendre functions at a latitude and their derivatives.
// kept: five lists: document 01's call lends them in this order, and `legendre::compute`, its kernel, takes the same.
pub fn compute_with_derivative(
    degree: usize,
    a: &[f64],
    b: &[f64],
    lat: f64,
    p: &mut [f64],
    dp: &mut [f64],
    scratch: &mut [f64],
) -> Result<(), Refusal>
    ensures { left result (p.new ∷ dp.new ∷ []) scratch.new ≡ compute_call degree a.now b.now lat
        p.old dp.old scratch.old }
{
    let values = slices::all_finite(a) && (slices::all_finite(b) && numbers::is_finite(lat));
    compute_refusal(
        degree,
        a.len(),
        b.len(),
        p.len(),
        dp.len(),
        scratch.len(),
        values,
    )?;
    legendre::prepare(degree, scratch);
    legendre::compute(degree, a, b, &scratch[..], lat, p, dp);
    slices::clear(scratch);
    hand_two(p, dp)
}

// What an evaluation is asked of: a field with its Legendre tables, and the place.
#[derive(Clone, Copy)]
pub struct Asked<'a> {
    pub degree: usize,
    pub field: &'a [f64],
    pub a: &'a [f64],
    pub b: &'a [f64],
    pub r: f64,
    pub lat: f64,
    pub lon: f64,
}

// The value from a scratch slice that will be cleared.
fn partials_in(of: &Asked<'_>, scratch: &mut [f64]) -> legendre::Partials
    requires { (length of.now.field.now ≡ 2 + 2 * size of.now.degree) × Fits of.now.degree (length of.now.a.now) (length of.now.b.now) (length scratch.old) }
    ensures { result ≡ partials_of_field of.now.degree of.now.field.now of.now.a.now of.now.b.now of.now.r of.now.lat of.now.lon }
{
    let degree = of.degree;
    let field = of.field;
    let gm = field[0];
    let radius = field[1];
    let l2 = 2 * numbers::triangle(degree + 1);
    let end = field.len();
    legendre::prepare(degree, scratch);
    slices::copy(&field[2..end], &mut scratch[0..l2]);
    legendre::evaluate(
        degree,
        gm,
        radius,
        of.a,
        of.b,
        &scratch[..],
        of.r,
        of.lat,
        of.lon,
    )
}

// The tests but the last, of the value itself, and the work; the scratch is cleared. `values` says whether the numbers are fine. Crate
// `forces` calls this too.
pub fn untested_partials(
    of: &Asked<'_>,
    values: bool,
    scratch: &mut [f64],
) -> Result<legendre::Partials, Refusal>
    ensures { left result [] scratch.new ≡ untested_call of.now.degree of.now.field.now of.now.a.now of.now.b.now values of.now.r of.now.lat of.now.lon
        scratch.old }
{
    field_refusal(
        of.degree,
        of.field.len(),
        of.a.len(),
        of.b.len(),
        scratch.len(),
        values,
    )?;
    let p = partials_in(of, scratch);
    slices::clear(scratch);
    Ok(p)
}

fn values_fine(of: &Asked<'_>) -> bool
    ensures { result ≡ place_fine of.now.field.now of.now.a.now of.now.b.now of.now.r of.now.lat of.now.lon }
{
    let place = numbers::is_finite(of.r)
        && (numbers::is_finite(of.lat) && numbers::is_finite(of.lon));
    slices::all_finite(of.field)
        && (slices::all_finite(of.a) && (slices::all_finite(of.b) && place))
}

// The potential and its derivatives by radius, latitude and longitude.
pub fn partials(
    degree: usize,
    field: &[f64],
    a: &[f64],
    b: &[f64],
    r: f64,
    lat: f64,
    lon: f64,
    scratch: &mut [f64],
) -> Result<legendre::Partials, Refusal>
    ensures { left result [] scratch.new ≡ partials_call degree field.now a.now b.now r lat lon
        scratch.old }
{
    let of = Asked {
        degree,
        field,
        a,
        b,
        r,
        lat,
        lon,
    };
    judged(untested_partials(&of, values_fine(&of), scratch)?)
}

// North, east and up from the partials.
#[tactic(auto, unfolding(crate::specs::Calls::acceleration_call))]
pub fn acceleration_neu(
    partials: legendre::Partials,
    r: f64,
    lat: f64,
) -> Result<NorthEastUp, Refusal>
    ensures { result ≡ acceleration_call partials r lat }
{
    let place = numbers::is_finite(r) && numbers::is_finite(lat);
    slices::tested(finite_partials(partials) && place, Refusal::Value)?;
    let a = NorthEastUp {
        north: partials.dlat / r,
        east: partials.dlon / (r * numbers::cosine(lat)),
        up: partials.dr,
    };
    slices::tested(finite_neu(a), Refusal::NotFinite)?;
    Ok(a)
}
