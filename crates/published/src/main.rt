// The engine beside published values of the series that it cites: for each the published value, the engine's own, the difference, and whether that lies
// within the source's accuracy. The last line counts those that do; a refused answer never does (specs/Judged.antt).
#![tactic(auto)]

use table::Tally;

mod band;
mod calendar;
mod ellipsoid;
mod harmonics;
mod sky;
mod table;
mod text;

// Every group, one after another.
fn groups() -> Tally {
    let begun = Tally {
        shown: 0,
        within: 0,
    };
    let gravity = ellipsoid::group(begun);
    let eclipses = sky::eclipses(gravity);
    let distances = sky::distances(eclipses);
    let tide = sky::tide(distances);
    let forms = harmonics::closed_forms(tide);
    let sums = harmonics::sums(forms);
    band::group(sums)
}

fn main() {
    text::say(
        "Published values beside the engine's own, each through a public call. Accuracy: what the source states, or",
    );
    text::say(
        "what its digits and the terms that it leaves out allow; for an identity, what rounding leaves.",
    );
    text::say(groups());
}
