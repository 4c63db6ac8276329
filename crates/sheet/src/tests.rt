// The tests of the whole path, over all its lists, before the work.
ghost use Rattle.std.specs.Prelude.{◌≡◌, [], ◌∷◌, eqb};
ghost use Rattle.std.specs.List.{list_all};
ghost use Rattle.inputs.specs.Lent.{fixed_of, lists_of};
ghost use Rattle.sheet.specs.Calls.{lists_counted, lists_fit, lists_fine, lists_rise, refusal_of};

use inputs::Submission;
use slices::Refusal;

// Outputs of length m.
pub(crate) fn outputs_fit(
    m: usize,
    times: usize,
    raws: usize,
    detrended: usize,
    passed: usize,
) -> bool
    ensures { result ≡ list_all (λ n. eqb n m) (times ∷ raws ∷ detrended ∷ passed ∷ []) }
{
    times == m && (raws == m && (detrended == m && passed == m))
}

#[tactic(auto, unfolding(crate::specs::Calls::lists_counted))]
fn lists_counted(submission: Submission<'_>) -> bool
    ensures { result ≡ lists_counted (fixed_of submission.entry) (lists_of submission.entry) }
{
    submission.inputs.are_counted()
        && (submission.nodes.len() <= 64 && submission.observed.times.len() <= 100000)
}

#[tactic(auto, unfolding(crate::specs::Calls::lists_fit))]
fn lists_fit(submission: Submission<'_>, outputs: bool, room: usize) -> bool
    ensures { result ≡ lists_fit (fixed_of submission.entry) (lists_of submission.entry) outputs room }
{
    let model = submission.inputs.model;
    let observed = submission.observed;
    let m = observed.times.len();
    let fields = model.field_times.len();
    let nodes = submission.nodes.len();
    let scratch = inputs::whole_scratch_fits(model.degree, fields, nodes, m, room);
    submission.inputs.are_sized()
        && (((observed.values.len() == m && observed.good.len() == m) && outputs) && scratch)
}

#[tactic(auto, unfolding(crate::specs::Calls::lists_fine))]
fn lists_fine(submission: Submission<'_>) -> bool
    ensures { result ≡ lists_fine (fixed_of submission.entry) (lists_of submission.entry) }
{
    let observed = submission.observed;
    let own = slices::all_times(observed.times) && slices::all_finite(observed.values);
    submission.inputs.are_fine() && (slices::all_times(submission.nodes) && own)
}

#[tactic(auto, unfolding(crate::specs::Calls::lists_rise))]
fn lists_rise(submission: Submission<'_>) -> bool
    ensures { result ≡ lists_rise (fixed_of submission.entry) (lists_of submission.entry) }
{
    submission.inputs.rise()
        && (slices::rising(submission.nodes) && slices::rising(submission.observed.times))
}

// The refusal of the first test that fails; `outputs` is whether the outputs are as long as they must be.
#[tactic(auto, unfolding(crate::specs::Calls::refusal_of))]
pub(crate) fn refusal(submission: Submission<'_>, outputs: bool, room: usize) -> Result<(), Refusal>
    ensures { result ≡ refusal_of (fixed_of submission.entry) (lists_of submission.entry) outputs room }
{
    inputs::first_of(
        inputs::degree_fine(submission.inputs.model.degree),
        lists_counted(submission),
        lists_fit(submission, outputs, room),
        lists_fine(submission),
        lists_rise(submission),
        Ok(()),
    )
}
