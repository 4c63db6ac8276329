// The detrended and the passed column of a sheet, from the times and raw values of its first entries.
#![tactic(auto)]

ghost use Rattle.std.specs.Prelude.{◌≡◌, [], ◌∷◌, map, ◌*◌, ◌≤◌, length, take};
ghost use Rattle.finality.specs.Sheet.{published};
ghost use Rattle.detrend.specs.Revolutions.{removed_of};
ghost use Rattle.filter.specs.Filter.{band_pass};
ghost use Rattle.columns.specs.Columns.{columns_serve, first_detrended, ColumnsFilled};

#[tactic(auto, unfolding(crate::specs::Columns::columns_serve))]
fn serve(n: usize, times: usize, raws: usize, detrended: usize, passed: usize, room: usize) -> bool
    ensures { result ≡ columns_serve n times (raws ∷ detrended ∷ passed ∷ []) room }
{
    let long = raws == times && (detrended == times && passed == times);
    n <= times && (long && n <= room / 8)
}

// Times and values go into the scratch, and the values come back without each revolution's fit.
fn remove(nodes: &[f64], times: &[f64], values: &mut [f64], s: &mut [f64])
    requires { (length times.now ≡ length values.old) × (8 * length values.old ≤ length s.old) }
    ensures { values.new ≡ removed_of nodes.now times.now values.old }
{
    let n = times.len();
    let m = n + n;
    slices::copy(times, &mut s[0..n]);
    slices::copy(values, &mut s[n..m]);
    detrend::kernel::remove_within(s, n, nodes);
    slices::copy(&s[n..m], values);
}

// A column of raw values becomes the detrended one.
#[tactic(auto, using(crate::proofs::Filling::detrended_column))]
fn detrend_column(nodes: &[f64], n: usize, times: &[f64], column: &mut [f64], s: &mut [f64])
    requires { (n ≤ length times.now) × (length column.old ≡ length times.now) × (8 * n ≤ length s.old) }
    ensures { column.new ≡ published (length times.now) (first_detrended nodes.now n times.now column.old) }
{
    remove(nodes, &times[0..n], &mut column[0..n], s);
    let end = column.len();
    slices::clear(&mut column[n..end]);
}

#[tactic(auto, using(crate::proofs::Filling::passed_column))]
fn pass_column(n: usize, times: &[f64], detrended: &[f64], passed: &mut [f64], s: &mut [f64])
    requires { (n ≤ length times.now) × (length detrended.now ≡ length times.now) × (length passed.old ≡ length times.now)
        × (8 * n ≤ length s.old) }
    ensures { passed.new ≡ published (length times.now) (band_pass (take n times.now) (take n detrended.now)) }
{
    filter::kernel::band_pass(&times[0..n], &detrended[0..n], &mut passed[0..n], s);
    let end = passed.len();
    slices::clear(&mut passed[n..end]);
}

// kept: of the six lists of `fill` three are read and three written, as the sheet's call lends them, and each function above takes four of
// them: a struct would be taken apart at once.
// Both columns of the first n entries, +0.0 behind them. False, and nothing is done, where the slices do not serve.
// kept: a bool, since nothing is handed out but what is lent; `sheet` may ignore it, as its own tests let through only what serves here.
pub fn fill(
    nodes: &[f64],
    n: usize,
    times: &[f64],
    raws: &[f64],
    detrended: &mut [f64],
    passed: &mut [f64],
    s: &mut [f64],
) -> bool
    ensures { ColumnsFilled (columns_serve n (length times.now)
        (map length (raws.now ∷ detrended.old ∷ passed.old ∷ [])) (length s.old)) nodes.now n
        times.now raws.now (detrended.old ∷ passed.old ∷ []) (detrended.new ∷ passed.new ∷ [])
        s.old s.new result }
{
    let served = serve(
        n,
        times.len(),
        raws.len(),
        detrended.len(),
        passed.len(),
        s.len(),
    );
    if served {
        slices::copy(raws, detrended);
        detrend_column(nodes, n, times, detrended, s);
        pass_column(n, times, detrended, passed, s);
    }
    served
}
