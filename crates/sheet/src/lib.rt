// The whole path: one call from a submission to the columns of its sheet, with the number of kept epochs and of final ones.
#![tactic(auto)]

mod tests;
mod work;

ghost use Rattle.std.specs.Prelude.{◌≡◌, [], ◌∷◌, map};
ghost use Rattle.std.specs.Float.Ieee.Scale.{finite};
ghost use Rattle.std.specs.List.{list_all};
ghost use Rattle.laws.specs.Loops.{cleared};
ghost use Rattle.slices.specs.Calls.{left};
ghost use Rattle.inputs.specs.Lent.{fixed_of, lists_of};
ghost use Rattle.sheet.specs.Calls.{sheet_call};

use slices::Refusal;

// How many epochs are kept, and how many of them are final.
#[derive(Clone, Copy)]
pub struct Counts {
    pub kept: usize,
    pub finals: usize,
}

fn columns_finite(times: &[f64], raws: &[f64], detrended: &[f64], passed: &[f64]) -> bool
    ensures { result ≡ list_all (list_all finite) (times.now ∷ raws.now ∷ detrended.now ∷ passed.now ∷ []) }
{
    let filtered = slices::all_finite(detrended) && slices::all_finite(passed);
    slices::all_finite(times) && (slices::all_finite(raws) && filtered)
}

fn clear_columns(times: &mut [f64], raws: &mut [f64], detrended: &mut [f64], passed: &mut [f64])
    ensures { (times.new ∷ raws.new ∷ detrended.new ∷ passed.new ∷ []) ≡ map cleared
        (times.old ∷ raws.old ∷ detrended.old ∷ passed.old ∷ []) }
{
    slices::clear(times);
    slices::clear(raws);
    slices::clear(detrended);
    slices::clear(passed);
}

// The sheet of a submission: time, raw residual, detrended residual and passed value of each epoch that is kept.
// kept: document 01 lends the four columns of this call one by one.
#[tactic(auto, using(crate::proofs::Answers::passes, crate::proofs::Answers::unfit, crate::proofs::Answers::refused))]
pub fn sheet(
    submission: inputs::Submission<'_>,
    outtimes: &mut [f64],
    outraws: &mut [f64],
    outdetrended: &mut [f64],
    outpassed: &mut [f64],
    scratch: &mut [f64],
) -> Result<Counts, Refusal>
    ensures { left result (outtimes.new ∷ outraws.new ∷ outdetrended.new ∷ outpassed.new ∷ []) scratch.new ≡
        sheet_call (fixed_of submission.entry) (lists_of submission.entry)
        (outtimes.old ∷ outraws.old ∷ outdetrended.old ∷ outpassed.old ∷ []) scratch.old }
{
    let outputs = tests::outputs_fit(
        submission.observed.times.len(),
        outtimes.len(),
        outraws.len(),
        outdetrended.len(),
        outpassed.len(),
    );
    tests::refusal(submission, outputs, scratch.len())?;
    let kept = work::work(
        submission,
        outtimes,
        outraws,
        outdetrended,
        outpassed,
        scratch,
    );
    slices::clear(scratch);
    if columns_finite(outtimes, outraws, outdetrended, outpassed) {
        let finals = work::count_final(submission, &outtimes[0..kept]);
        return Ok(Counts { kept, finals });
    }
    clear_columns(outtimes, outraws, outdetrended, outpassed);
    Err(Refusal::NotFinite)
}
