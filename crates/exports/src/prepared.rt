// What is refused of a work slice that is to be prepared, and of one that is.
ghost use Rattle.std.specs.Prelude.{◌≡◌, true, ◌&&◌, ◌*◌, ◌≤◌, leb, eqb};
ghost use Rattle.legendre.specs.Field.{size};
ghost use Rattle.fields.specs.Calls.{refusal_of as field_refusal, two_tables};
ghost use Rattle.exports.specs.Calls.{place_fine as fine};

use slices::Refusal;

// L, for a degree up to 180.
fn size_of(degree: usize) -> usize
    ensures { (degree ≤ 180 → result ≡ size degree) × (result ≤ 16471) }
{
    inputs::front_size(degree) / 8
}

pub fn prepare_refusal(degree: usize, work: usize) -> Result<(), Refusal>
    ensures { result ≡ field_refusal degree (leb (8 * size degree) work) true }
{
    slices::tested(inputs::degree_fine(degree), Refusal::Degree)?;
    slices::tested(8 * size_of(degree) <= work, Refusal::Length)
}

pub fn place_fine(gm: f64, radius: f64, r: f64, lat: f64, lon: f64) -> bool
    ensures { result ≡ fine gm radius r lat lon }
{
    (numbers::is_finite(gm) && numbers::is_finite(radius))
        && (numbers::is_finite(r) && (numbers::is_finite(lat) && numbers::is_finite(lon)))
}

// Tables of l numbers, a work slice of 8·l or more, four places.
fn lengths_fit(l: usize, a: usize, b: usize, work: usize, out: usize) -> bool
    requires { l ≤ 16471 }
    ensures { result ≡ (two_tables l a b work && eqb out 4) }
{
    (a == l && (b == l && 8 * l <= work)) && out == 4
}

pub fn partials_refusal(
    degree: usize,
    a: usize,
    b: usize,
    work: usize,
    out: usize,
    values: bool,
) -> Result<(), Refusal>
    ensures { result ≡ field_refusal degree (two_tables (size degree) a b work && eqb out 4) values }
{
    slices::tested(inputs::degree_fine(degree), Refusal::Degree)?;
    slices::tested(
        lengths_fit(size_of(degree), a, b, work, out),
        Refusal::Length,
    )?;
    slices::tested(values, Refusal::Value)
}
