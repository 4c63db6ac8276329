// All epochs over lent lists: the records of those that are kept, in order.
// kept: the outputs are lent one by one, as the call has them. The contract of each function that is lent a struct of them has to promise that its fields are
// still the same references (their ghost names): five functions here, of five fields.
ghost use Rattle.std.specs.Prelude.{◌≡◌, ◌+◌, ◌<◌, ◌≤◌, Some, length};
ghost use Rattle.inputs.specs.Inputs.{front_size};
ghost use Rattle.inputs.specs.Lent.{inputs_of, observed_of};
ghost use Rattle.residuals.specs.Work.{Ready};
ghost use Rattle.residuals.specs.Calls.{epoch_columns};
ghost use Rattle.residuals.specs.Filling.{zeros, blank, Long, Added, SoFar, Begun, Done};

use crate::work::Rows;
use epoch_record::Epoch;

// Observations that have passed the call's tests: values and bytes are as many as times.
#[derive(Clone, Copy)]
pub(crate) struct Samples<'a> {
    pub observed: inputs::Observed<'a>,
    pub ghost values: { length observed.values.now ≡ length observed.times.now },
    pub ghost good: { length observed.good.now ≡ length observed.times.now },
}

fn clear_arrays<const N: usize>(list: &mut [[f64; N]])
    requires { N ≤ 5 }
    ensures { list.new ≡ zeros (length list.old) N }
{
    list.fill([0.0; N]);
}

// Stores a record behind the first k, where it is kept, and counts it; none are counted where a number of it is not finite.
fn add(
    made: Option<Epoch>,
    k: usize,
    outtimes: &mut [f64],
    outresiduals: &mut [f64],
    outterms: &mut [[f64; 5]],
    outmids: &mut [[f64; 3]],
    outvels: &mut [[f64; 3]],
) -> Option<usize>
    requires { (k < length outtimes.old) × (k < length outresiduals.old) × (k < length outterms.old)
        × (k < length outmids.old) × (k < length outvels.old) }
    ensures { Added made k result (epoch_columns outtimes.old outresiduals.old outterms.old outmids.old
        outvels.old)
        (epoch_columns outtimes.new outresiduals.new outterms.new outmids.new outvels.new) }
{
    let Some(e) = made else {
        return Some(k);
    };
    if !crate::epoch_finite(e) {
        return None;
    }
    outtimes[k] = e.t;
    outresiduals[k] = e.residual;
    let (terms, mid, vel) = (e.terms, e.mid, e.vel);
    outterms[k] = terms;
    outmids[k] = mid;
    outvels[k] = vel;
    Some(k + 1)
}

// Observation i.
fn turn(
    rows: Rows<'_>,
    samples: Samples<'_>,
    i: usize,
    k: usize,
    base: usize,
    outtimes: &mut [f64],
    outresiduals: &mut [f64],
    outterms: &mut [[f64; 5]],
    outmids: &mut [[f64; 3]],
    outvels: &mut [[f64; 3]],
    w: &mut [f64],
) -> Option<usize>
    requires { (base ≡ front_size rows.inputs.model.degree) × (i < length samples.observed.times.now)
        × SoFar (inputs_of rows.inputs) (observed_of samples.observed) base i
        (Some k) (epoch_columns outtimes.old outresiduals.old outterms.old outmids.old outvels.old) w.old }
    ensures { SoFar (inputs_of rows.entry.inputs) (observed_of samples.entry.observed) base (i + 1) result
        (epoch_columns outtimes.new outresiduals.new outterms.new outmids.new outvels.new) w.new }
{
    let t = integrate::kernel::element(samples.observed.times, i);
    let value = integrate::kernel::element(samples.observed.values, i);
    let made = crate::work::try_epoch(rows, t, value, samples.observed.good[i], base, w);
    add(made, k, outtimes, outresiduals, outterms, outmids, outvels)
}

// From an empty beginning.
fn fill_from(
    rows: Rows<'_>,
    samples: Samples<'_>,
    base: usize,
    outtimes: &mut [f64],
    outresiduals: &mut [f64],
    outterms: &mut [[f64; 5]],
    outmids: &mut [[f64; 3]],
    outvels: &mut [[f64; 3]],
    w: &mut [f64],
) -> Option<usize>
    requires { (base ≡ front_size rows.inputs.model.degree)
        × Begun (inputs_of rows.inputs) (observed_of samples.observed) base
        (epoch_columns outtimes.old outresiduals.old outterms.old outmids.old outvels.old) w.old }
    ensures { Done (inputs_of rows.entry.inputs) (observed_of samples.entry.observed) result
        (epoch_columns outtimes.new outresiduals.new outterms.new outmids.new outvels.new) }
{
    let mut count = 0;
    for i in 0..samples.observed.times.len() {
        let more = turn(
            rows,
            samples,
            i,
            count,
            base,
            outtimes,
            outresiduals,
            outterms,
            outmids,
            outvels,
            w,
        );
        count = more?;
    }
    Some(count)
}

// +0.0 in every output.
pub(crate) fn clear_lists(
    outtimes: &mut [f64],
    outresiduals: &mut [f64],
    outterms: &mut [[f64; 5]],
    outmids: &mut [[f64; 3]],
    outvels: &mut [[f64; 3]],
)
    ensures { epoch_columns outtimes.new outresiduals.new outterms.new outmids.new outvels.new ≡ blank
        (epoch_columns outtimes.old outresiduals.old outterms.old outmids.old outvels.old) }
{
    slices::clear(outtimes);
    slices::clear(outresiduals);
    clear_arrays(outterms);
    clear_arrays(outmids);
    clear_arrays(outvels);
}

// The records of the epochs that are kept, in order, and how many they are; +0.0 after the last. None where a number of them is not finite.
pub(crate) fn fill(
    inputs: inputs::Inputs<'_>,
    samples: Samples<'_>,
    outtimes: &mut [f64],
    outresiduals: &mut [f64],
    outterms: &mut [[f64; 5]],
    outmids: &mut [[f64; 3]],
    outvels: &mut [[f64; 3]],
    w: &mut [f64],
) -> Option<usize>
    requires { Ready (inputs_of inputs) (length w.old)
        × Long (length samples.observed.times.now) (epoch_columns outtimes.old outresiduals.old outterms.old outmids.old outvels.old) }
    ensures { Done (inputs_of inputs.entry) (observed_of samples.entry.observed) result
        (epoch_columns outtimes.new outresiduals.new outterms.new outmids.new outvels.new) }
{
    let base = inputs::front_size(inputs.model.degree);
    clear_lists(outtimes, outresiduals, outterms, outmids, outvels);
    epoch::open(inputs.model.degree, base, w);
    fill_from(
        Rows { inputs },
        samples,
        base,
        outtimes,
        outresiduals,
        outterms,
        outmids,
        outvels,
        w,
    )
}
