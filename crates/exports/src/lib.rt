// The static library's functions for Rust and C (bindings/c/pozsmeteg.h), of three kinds:
// - the elementary numbers refuse nothing, and answer NaN where document 01 or IEEE 754 does;
// - `pozsmeteg_final_entries` refuses nothing: a count above the list's length gives 0;
// - every other is the public call of the same name, its answer told in numbers: it returns 0 for acceptance or the refusal's number, and its values
//   go into a lent list that has a place for each, else 3. NaN never leaves them. `prepare` and `partials_prepared` are such calls over the kernel of
//   `partials`, for many evaluations at one degree: they do not look at the numbers in the tables and in the work slice.
// kept: the long argument lists, for the C interface lends each list alone.
#![tactic(auto)]

mod answers;
mod lent;
mod places;
mod prepared;

ghost use Rattle.std.specs.Prelude.{◌≡◌, [], ◌∷◌, length};
ghost use Rattle.std.specs.Float.{binary64};
ghost use Rattle.slices.specs.Calls.{left};
ghost use Rattle.fields.specs.Calls.{new_call};
ghost use Rattle.filter.specs.Calls.{band_pass_call};
ghost use Rattle.detrend.specs.Calls.{detrend_call};
ghost use Rattle.inputs.specs.Inputs.{model_with, keyed, pair_with, observed_with, inputs, lists as sheet_lists};
ghost use Rattle.residuals.specs.Calls.{epoch_columns};
ghost use Rattle.horizon.specs.Horizon.{final_entries};
ghost use Rattle.horizon.specs.Calls.{given};
ghost use Rattle.exports.specs.Calls.{outcome_left, told, told_alone, prepare_told, partials_told, prepared_answer, prepared_told, fit_told};
ghost use Rattle.exports.specs.Calls.{revolutions_told, residuals_told, sheet_told, horizon_told, final_count_told};
ghost use Rattle.root.specs.Root.{sqrt};
ghost use Rattle.numbers.specs.Numbers.{sine as Numbers·sine, cosine as Numbers·cosine, arctangent as Numbers·arctangent, arcsine as Numbers·arcsine};
ghost use Rattle.numbers.specs.Numbers.{carried as Numbers·carried};

#[unsafe(no_mangle)]
pub extern "C" fn pozsmeteg_root(x: f64) -> f64
    ensures { result ≡ sqrt binary64 x }
{
    root::root(x)
}

#[unsafe(no_mangle)]
pub extern "C" fn pozsmeteg_sine(x: f64) -> f64
    ensures { result ≡ Numbers·sine x }
{
    numbers::sine(x)
}

#[unsafe(no_mangle)]
pub extern "C" fn pozsmeteg_cosine(x: f64) -> f64
    ensures { result ≡ Numbers·cosine x }
{
    numbers::cosine(x)
}

#[unsafe(no_mangle)]
pub extern "C" fn pozsmeteg_arctangent(y: f64, x: f64) -> f64
    ensures { result ≡ Numbers·arctangent y x }
{
    numbers::arctangent(y, x)
}

#[unsafe(no_mangle)]
pub extern "C" fn pozsmeteg_arcsine(v: f64) -> f64
    ensures { result ≡ Numbers·arcsine v }
{
    numbers::arcsine(v)
}

#[unsafe(no_mangle)]
pub extern "C" fn pozsmeteg_power(a: f64, n: u32, c: f64) -> f64
    ensures { result ≡ Numbers·carried a n c }
{
    numbers::carried(a, n, c)
}

// What many evaluations at one degree share, into a work slice with C and S in front.
#[tactic(auto, unfolding(crate::specs::Calls::prepare_told))]
#[unsafe(no_mangle)]
pub extern "C" fn pozsmeteg_prepare(degree: usize, work: &mut [f64]) -> u8
    ensures { left result (work.new ∷ []) [] ≡ prepare_told degree work.old }
{
    if let Err(refusal) = prepared::prepare_refusal(degree, work.len()) {
        return u8::from(refusal);
    }
    fields::kernel::prepare(degree, work);
    0
}

// The four numbers from a prepared work slice.
#[tactic(auto, unfolding(crate::specs::Calls::prepared_answer))]
#[unsafe(no_mangle)]
pub extern "C" fn pozsmeteg_partials_prepared(
    degree: usize,
    gm: f64,
    radius: f64,
    a: &[f64],
    b: &[f64],
    work: &[f64],
    r: f64,
    lat: f64,
    lon: f64,
    out: &mut [f64],
) -> u8
    ensures { left result (out.new ∷ []) [] ≡ prepared_told (prepared_answer degree gm radius a.now b.now work.now
        r lat lon (length out.old)) out.old }
{
    let place = prepared::place_fine(gm, radius, r, lat, lon);
    let refusal = prepared::partials_refusal(
        degree,
        a.len(),
        b.len(),
        work.len(),
        out.len(),
        place,
    );
    if let Err(refusal) = refusal {
        return u8::from(refusal);
    }
    let z = fields::kernel::partials(degree, gm, radius, a, b, work, r, lat, lon);
    answers::store(fields::judged(z), 0.0, out)
}

// The rms goes into the one place of rms.
#[tactic(auto, unfolding(crate::specs::Calls::fit_told))]
#[unsafe(no_mangle)]
pub extern "C" fn pozsmeteg_fit_orbit<'a>(
    degree: usize,
    field: &'a [f64],
    a: &'a [f64],
    b: &'a [f64],
    times: &'a [f64],
    added: &'a [f64],
    keys: &[i64],
    states: &[f64],
    t0: f64,
    steps: usize,
    node: f64,
    period: f64,
    out: &mut [f64],
    rms: &mut [f64],
    scratch: &mut [f64],
) -> u8
    ensures { told result rms.new (out.new ∷ []) scratch.new ≡ fit_told
        (model_with degree field.now a.now b.now times.now added.now) (keyed keys.now states.now)
        (record { t0 = t0; steps = steps; node = node; period = period }) out.old rms.old
        scratch.old }
{
    if rms.len() != 1 {
        return answers::number(places::fit(degree, times.len(), keys.len(), steps));
    }
    let arc = integrate::kernel::Arc {
        t0,
        steps,
        node,
        period,
    };
    let model = lent::model(degree, field, a, b, times, added);
    let known = inputs::Keyed {
        keys,
        values: states,
    };
    let fitted = fit::fit_orbit(model, known, arc, out, scratch);
    answers::store(fitted.answer(), 0.0, rms)
}

#[unsafe(no_mangle)]
pub extern "C" fn pozsmeteg_legendre_new(
    degree: usize,
    a: &mut [f64],
    b: &mut [f64],
    scratch: &mut [f64],
) -> u8
    ensures { left result (a.new ∷ b.new ∷ []) scratch.new ≡ outcome_left
        (new_call degree a.old b.old scratch.old) }
{
    answers::number(fields::legendre_new(degree, a, b, scratch))
}

// The four numbers go into the four places of out.
#[tactic(auto, unfolding(crate::specs::Calls::partials_told))]
#[unsafe(no_mangle)]
pub extern "C" fn pozsmeteg_partials(
    degree: usize,
    field: &[f64],
    a: &[f64],
    b: &[f64],
    r: f64,
    lat: f64,
    lon: f64,
    out: &mut [f64],
    scratch: &mut [f64],
) -> u8
    ensures { told result out.new [] scratch.new ≡ partials_told degree field.now a.now b.now r lat lon
        out.old scratch.old }
{
    if out.len() != 4 {
        return answers::number(places::partials(degree));
    }
    let answer = fields::partials(degree, field, a, b, r, lat, lon, scratch);
    answers::store(answer, 0.0, out)
}

#[unsafe(no_mangle)]
pub extern "C" fn pozsmeteg_band_pass(
    times: &[f64],
    x: &[f64],
    out: &mut [f64],
    scratch: &mut [f64],
) -> u8
    ensures { left result (out.new ∷ []) scratch.new ≡ outcome_left
        (band_pass_call times.now x.now out.old scratch.old) }
{
    answers::number(filter::band_pass(times, x, out, scratch))
}

#[unsafe(no_mangle)]
pub extern "C" fn pozsmeteg_detrend(
    times: &[f64],
    values: &mut [f64],
    firsts: &[usize],
    ends: &[usize],
    starts: &[f64],
    periods: &[f64],
    scratch: &mut [f64],
) -> u8
    ensures { left result (values.new ∷ []) scratch.new ≡ outcome_left
        (detrend_call times.now values.old firsts.now ends.now starts.now periods.now
        scratch.old) }
{
    let parts = detrend::Parts {
        firsts,
        ends,
        starts,
        periods,
    };
    answers::number(detrend::detrend(times, values, parts, scratch))
}

// The count goes into the one place of counts.
#[tactic(auto, unfolding(crate::specs::Calls::revolutions_told))]
#[unsafe(no_mangle)]
pub extern "C" fn pozsmeteg_revolutions(
    times: &[f64],
    nodes: &[f64],
    firsts: &mut [usize],
    ends: &mut [usize],
    starts: &mut [f64],
    periods: &mut [f64],
    counts: &mut [usize],
) -> u8
    ensures { told result counts.new (firsts.new, (ends.new, (starts.new, periods.new))) [] ≡ revolutions_told
        times.now nodes.now firsts.old ends.old starts.old periods.old
        counts.old }
{
    if counts.len() != 1 {
        return answers::number(places::revolutions(times.len(), nodes.len()));
    }
    let answer = detrend::revolutions(times, nodes, firsts, ends, starts, periods);
    answers::store(answer, 0, counts)
}

// The count of kept epochs goes into the one place of counts.
#[tactic(auto, unfolding(crate::specs::Calls::residuals_told))]
#[unsafe(no_mangle)]
pub extern "C" fn pozsmeteg_residuals<'a>(
    degree: usize,
    field: &'a [f64],
    a: &'a [f64],
    b: &'a [f64],
    times: &'a [f64],
    added: &'a [f64],
    ckeys: &'a [i64],
    cstates: &'a [f64],
    dkeys: &'a [i64],
    dstates: &'a [f64],
    cacckeys: &'a [i64],
    caccs: &'a [f64],
    dacckeys: &'a [i64],
    daccs: &'a [f64],
    obstimes: &[f64],
    obsvalues: &[f64],
    good: &[u8],
    outtimes: &mut [f64],
    outresiduals: &mut [f64],
    outterms: &mut [[f64; 5]],
    outmids: &mut [[f64; 3]],
    outvels: &mut [[f64; 3]],
    counts: &mut [usize],
    scratch: &mut [f64],
) -> u8
    ensures { told result counts.new
        (epoch_columns outtimes.new outresiduals.new outterms.new outmids.new outvels.new)
        scratch.new ≡ residuals_told (inputs (model_with degree field.now a.now b.now times.now
        added.now) (pair_with ckeys.now cstates.now dkeys.now dstates.now)
        (pair_with cacckeys.now caccs.now dacckeys.now daccs.now))
        (observed_with obstimes.now obsvalues.now good.now)
        (epoch_columns outtimes.old outresiduals.old outterms.old outmids.old outvels.old)
        counts.old scratch.old }
{
    if counts.len() != 1 {
        return answers::number(places::residuals(
            degree,
            times.len(),
            ckeys.len(),
            dkeys.len(),
            cacckeys.len(),
            dacckeys.len(),
            obstimes.len(),
        ));
    }
    let lent = inputs::Inputs {
        model: lent::model(degree, field, a, b, times, added),
        states: lent::pair(ckeys, cstates, dkeys, dstates),
        accs: lent::pair(cacckeys, caccs, dacckeys, daccs),
    };
    let counted = residuals::residuals(
        lent,
        lent::observed(obstimes, obsvalues, good),
        outtimes,
        outresiduals,
        outterms,
        outmids,
        outvels,
        scratch,
    );
    answers::store(counted, 0, counts)
}

// The whole path; the counts of kept and of final epochs go into the two places of counts.
#[tactic(auto, unfolding(crate::specs::Calls::sheet_told))]
#[unsafe(no_mangle)]
pub extern "C" fn pozsmeteg_sheet<'a>(
    degree: usize,
    field: &'a [f64],
    a: &'a [f64],
    b: &'a [f64],
    times: &'a [f64],
    added: &'a [f64],
    ckeys: &'a [i64],
    cstates: &'a [f64],
    dkeys: &'a [i64],
    dstates: &'a [f64],
    cacckeys: &'a [i64],
    caccs: &'a [f64],
    dacckeys: &'a [i64],
    daccs: &'a [f64],
    nodes: &[f64],
    obstimes: &[f64],
    obsvalues: &[f64],
    good: &[u8],
    outtimes: &mut [f64],
    outraws: &mut [f64],
    outdetrended: &mut [f64],
    outpassed: &mut [f64],
    counts: &mut [usize],
    scratch: &mut [f64],
) -> u8
    ensures { told result counts.new (outtimes.new ∷ outraws.new ∷ outdetrended.new ∷ outpassed.new ∷ [])
        scratch.new ≡ sheet_told
        (model_with degree field.now a.now b.now times.now added.now).fixed
        (sheet_lists (model_with degree field.now a.now b.now times.now added.now)
        (pair_with ckeys.now cstates.now dkeys.now dstates.now)
        (pair_with cacckeys.now caccs.now dacckeys.now daccs.now) nodes.now
        (observed_with obstimes.now obsvalues.now good.now))
        (outtimes.old ∷ outraws.old ∷ outdetrended.old ∷ outpassed.old ∷ []) counts.old
        scratch.old }
{
    if counts.len() != 2 {
        return answers::number(places::sheet(
            degree,
            times.len(),
            ckeys.len(),
            dkeys.len(),
            cacckeys.len(),
            dacckeys.len(),
            nodes.len(),
            obstimes.len(),
        ));
    }
    let submission = inputs::Submission {
        inputs: inputs::Inputs {
            model: lent::model(degree, field, a, b, times, added),
            states: lent::pair(ckeys, cstates, dkeys, dstates),
            accs: lent::pair(cacckeys, caccs, dacckeys, daccs),
        },
        nodes,
        observed: lent::observed(obstimes, obsvalues, good),
    };
    let answer = sheet::sheet(
        submission,
        outtimes,
        outraws,
        outdetrended,
        outpassed,
        scratch,
    );
    answers::store(answer, 0, counts)
}

// The horizon's time, −1.0 without one, goes into the one place of out.
#[unsafe(no_mangle)]
pub extern "C" fn pozsmeteg_horizon<'a>(
    nodes: &[f64],
    cstates: &'a [i64],
    dstates: &'a [i64],
    caccs: &'a [i64],
    daccs: &'a [i64],
    fields: &'a [f64],
    observed: &'a [f64],
    out: &mut [f64],
) -> u8
    ensures { told_alone result out.new ≡ horizon_told (given nodes.now cstates.now dstates.now caccs.now
        daccs.now fields.now observed.now) out.old }
{
    let tracks = lent::tracks(cstates, dstates, caccs, daccs, fields, observed);
    if out.len() != 1 {
        return answers::number(places::horizon(nodes.len(), tracks, 0));
    }
    let answer = horizon::horizon(nodes, tracks);
    answers::store(answer, 0.0, out)
}

// F, of the kept epochs' times, goes into the one place of counts.
#[unsafe(no_mangle)]
pub extern "C" fn pozsmeteg_final_count<'a>(
    nodes: &[f64],
    cstates: &'a [i64],
    dstates: &'a [i64],
    caccs: &'a [i64],
    daccs: &'a [i64],
    fields: &'a [f64],
    observed: &'a [f64],
    kept: &[f64],
    counts: &mut [usize],
) -> u8
    ensures { told_alone result counts.new ≡ final_count_told
        (given nodes.now cstates.now dstates.now caccs.now daccs.now fields.now
        observed.now) kept.now counts.old }
{
    let tracks = lent::tracks(cstates, dstates, caccs, daccs, fields, observed);
    if counts.len() != 1 {
        return answers::number(places::horizon(nodes.len(), tracks, kept.len()));
    }
    let answer = horizon::final_count(nodes, tracks, kept);
    answers::store(answer, 0, counts)
}

// How many entries the final part of a lent list has; it begins where the list does.
#[unsafe(no_mangle)]
pub extern "C" fn pozsmeteg_final_entries(list: &[f64], count: usize) -> usize
    ensures { result ≡ length (final_entries list.now count) }
{
    horizon::final_entries(list, count).len()
}
