// Range-acceleration residuals of the satellites C and D.
#![tactic(auto)]

mod filling;
mod work;

ghost use Rattle.std.specs.Prelude.{◌≡◌, [], length};
ghost use Rattle.inputs.specs.Lent.{inputs_of, observed_of};
ghost use Rattle.slices.specs.Calls.{left};
ghost use Rattle.epoch.specs.Kept.{observation};
ghost use Rattle.residuals.specs.Inputs.{epoch_of};
ghost use Rattle.residuals.specs.Work.{Ready};
ghost use Rattle.residuals.specs.Calls.{epoch_refusal, epoch_finite, answered, epoch_call, samples_fit, residuals_refusal};
ghost use Rattle.residuals.specs.Calls.{epoch_columns, columns_left, residuals_call};

use epoch_record::Epoch;
use slices::Refusal;

// ---- what is refused

#[tactic(auto, unfolding(crate::specs::Calls::epoch_refusal))]
fn epoch_refusal(
    inputs: inputs::Inputs<'_>,
    t: f64,
    observed: f64,
    scratch: usize,
) -> Result<(), Refusal>
    ensures { result ≡ epoch_refusal (inputs_of inputs.entry) t observed scratch }
{
    let model = inputs.model;
    let fields = model.field_times.len();
    inputs::first_of(
        inputs::degree_fine(model.degree),
        inputs.are_counted(),
        inputs.are_sized() && inputs::scratch_fits(model.degree, fields, 0, scratch),
        inputs.are_fine() && (slices::is_time(t) && numbers::is_finite(observed)),
        inputs.rise(),
        Ok(()),
    )
}

// Lengths of the observations' lists and of the outputs.
#[tactic(auto, unfolding(crate::specs::Calls::samples_fit))]
fn samples_fit(
    observed: inputs::Observed<'_>,
    times: usize,
    residuals: usize,
    terms: usize,
    mids: usize,
    vels: usize,
) -> bool
    ensures { result ≡ samples_fit (length observed.entry.times.now) (length observed.entry.values.now) (length observed.entry.good.now)
        times residuals terms mids vels }
{
    let m = observed.times.len();
    (observed.values.len() == m && observed.good.len() == m)
        && ((times == m && residuals == m) && (terms == m && (mids == m && vels == m)))
}

#[tactic(auto, unfolding(crate::specs::Calls::residuals_refusal))]
fn residuals_refusal(
    inputs: inputs::Inputs<'_>,
    observed: inputs::Observed<'_>,
    samples: bool,
    scratch: usize,
) -> Result<(), Refusal>
    ensures { result ≡ residuals_refusal (inputs_of inputs.entry) (observed_of observed.entry) samples scratch }
{
    let model = inputs.model;
    let fields = model.field_times.len();
    let count = observed.times.len();
    let sized = inputs.are_sized() && inputs::scratch_fits(model.degree, fields, count, scratch);
    let own = slices::all_times(observed.times) && slices::all_finite(observed.values);
    inputs::first_of(
        inputs::degree_fine(model.degree),
        inputs.are_counted() && count <= 100000,
        sized && samples,
        inputs.are_fine() && own,
        inputs.rise() && slices::rising(observed.times),
        Ok(()),
    )
}

// ---- what is handed out

#[tactic(auto, unfolding(crate::specs::Calls::epoch_finite))]
fn epoch_finite(e: Epoch) -> bool
    ensures { result ≡ epoch_finite e }
{
    let arrays = slices::all_finite(&e.terms)
        && (slices::all_finite(&e.mid) && slices::all_finite(&e.vel));
    numbers::is_finite(e.t) && (numbers::is_finite(e.residual) && arrays)
}

fn judged(made: Option<Epoch>) -> Result<Option<Epoch>, Refusal>
    ensures { result ≡ answered made }
{
    match made {
        Some(epoch) => {
            slices::tested(epoch_finite(epoch), Refusal::NotFinite)?;
            Ok(Some(epoch))
        }
        None => Ok(None),
    }
}

// ---- the calls

// One epoch's record, where it is kept.
pub fn epoch(
    inputs: inputs::Inputs<'_>,
    t: f64,
    observed: f64,
    good: u8,
    scratch: &mut [f64],
) -> Result<Option<Epoch>, Refusal>
    ensures { left result [] scratch.new ≡ epoch_call (inputs_of inputs.entry) (observation t observed good) scratch.old }
{
    epoch_refusal(inputs, t, observed, scratch.len())?;
    let base = inputs::front_size(inputs.model.degree);
    epoch::open(inputs.model.degree, base, scratch);
    let made = work::try_epoch(work::Rows { inputs }, t, observed, good, base, scratch);
    slices::clear(scratch);
    judged(made)
}

// The records of the epochs that are kept, in order: how many, and their numbers in five lists.
// kept: document 01 lends the outputs of this call one by one.
pub fn residuals(
    inputs: inputs::Inputs<'_>,
    observed: inputs::Observed<'_>,
    outtimes: &mut [f64],
    outresiduals: &mut [f64],
    outterms: &mut [[f64; 5]],
    outmids: &mut [[f64; 3]],
    outvels: &mut [[f64; 3]],
    scratch: &mut [f64],
) -> Result<usize, Refusal>
    ensures { columns_left result (epoch_columns outtimes.new outresiduals.new outterms.new outmids.new outvels.new) scratch.new
        ≡ residuals_call (inputs_of inputs.entry) (observed_of observed.entry)
        (epoch_columns outtimes.old outresiduals.old outterms.old outmids.old outvels.old) scratch.old }
{
    let samples = samples_fit(
        observed,
        outtimes.len(),
        outresiduals.len(),
        outterms.len(),
        outmids.len(),
        outvels.len(),
    );
    residuals_refusal(inputs, observed, samples, scratch.len())?;
    let filled = filling::fill(
        inputs,
        filling::Samples { observed },
        outtimes,
        outresiduals,
        outterms,
        outmids,
        outvels,
        scratch,
    );
    slices::clear(scratch);
    let Some(count) = filled else {
        filling::clear_lists(outtimes, outresiduals, outterms, outmids, outvels);
        return Err(Refusal::NotFinite);
    };
    Ok(count)
}
