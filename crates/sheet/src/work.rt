// The work of the whole path on lists that have passed the tests: fits, epochs, columns, and how many entries are final.
// kept: the columns are lent one by one, as the call has them: of them `gather` is handed two and `columns::fill` all four, each by itself, so a struct would
// be made to be taken apart at once.
ghost use Rattle.std.specs.Prelude.{◌≡◌, [], ◌∷◌, length};
ghost use Rattle.finality.specs.Sheet.{horizon_of, count_to};
ghost use Rattle.horizon.specs.Horizon.{ends_of};
ghost use Rattle.inputs.specs.Lent.{fixed_of, lists_of};
ghost use Rattle.slices.specs.Calls.{accepted};
ghost use Rattle.sheet.specs.Calls.{sheet_refusal, Worked};

use inputs::Submission;

// The columns; how many epochs are kept.
pub(crate) fn work(
    submission: Submission<'_>,
    outtimes: &mut [f64],
    outraws: &mut [f64],
    outdetrended: &mut [f64],
    outpassed: &mut [f64],
    s: &mut [f64],
) -> usize
    requires { sheet_refusal (fixed_of submission) (lists_of submission)
        (outtimes.old ∷ outraws.old ∷ outdetrended.old ∷ outpassed.old ∷ []) (length s.old) ≡ accepted }
    ensures { Worked (fixed_of submission.entry) (lists_of submission.entry) result
        (outtimes.new ∷ outraws.new ∷ outdetrended.new ∷ outpassed.new ∷ []) s.old s.new }
{
    let inputs = submission.inputs;
    let nodes = submission.nodes;
    slots::fill(inputs.model, inputs.states, nodes, s);
    let given = kept_epochs::Given {
        model: inputs.model,
        accs: inputs.accs,
        windows: nodes.len().saturating_sub(1),
        observed: submission.observed,
    };
    let kept = kept_epochs::gather(given, outtimes, outraws, s);
    columns::fill(nodes, kept, outtimes, outraws, outdetrended, outpassed, s);
    kept
}

// How many of the kept epochs at these times are final.
pub(crate) fn count_final(submission: Submission<'_>, kept: &[f64]) -> usize
    ensures { result ≡ count_to (horizon_of (ends_of submission.entry.inputs.states.c.keys.now submission.entry.inputs.states.d.keys.now
        submission.entry.inputs.accs.c.keys.now submission.entry.inputs.accs.d.keys.now submission.entry.inputs.model.field_times.now
        submission.entry.observed.times.now) submission.entry.nodes.now) kept.now }
{
    let inputs = submission.inputs;
    let tracks = horizon::Tracks {
        states_c: inputs.states.c.keys,
        states_d: inputs.states.d.keys,
        acc_c: inputs.accs.c.keys,
        acc_d: inputs.accs.d.keys,
        fields: inputs.model.field_times,
        observed: submission.observed.times,
    };
    horizon::kernel::final_count(horizon::kernel::horizon(submission.nodes, tracks), kept)
}
