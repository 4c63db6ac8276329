// Answers told in numbers: 0 for acceptance, or the refusal's number; values in a lent list that has a place for each.
ghost use Rattle.std.specs.Prelude.{◌≡◌, ℕ, List, Float, length, replicate};
ghost use Rattle.slices.specs.Answers.{answer_number};
ghost use Rattle.exports.specs.Answers.{one, two, four, time, told_in};

use slices::Refusal;

// The values of an answer as a list of numbers.
pub trait Values<A> {
    // How many numbers there are, and which.
    ghost places: { ℕ };

    ghost listed: { Self → List A };

    fn put(self, out: &mut [A])
        requires { length out.old ≡ places }
        ensures { out.new ≡ listed self };
}

impl Values<usize> for usize {
    ghost places = { 1 };

    ghost listed = { one };

    fn put(self, out: &mut [usize]) {
        out[0] = self;
    }
}

impl Values<f64> for f64 {
    ghost places = { 1 };

    ghost listed = { one };

    #[tactic(auto, using(crate::proofs::AnswersTold::one_set))]
    fn put(self, out: &mut [f64]) {
        out[0] = self;
    }
}

// The kept epochs, the final ones.
impl Values<usize> for sheet::Counts {
    ghost places = { 2 };

    ghost listed = { two };

    fn put(self, out: &mut [usize]) {
        out[0] = self.kept;
        out[1] = self.finals;
    }
}

impl Values<f64> for legendre::Partials {
    ghost places = { 4 };

    ghost listed = { four };

    #[tactic(auto, using(crate::proofs::AnswersTold::four_set))]
    fn put(self, out: &mut [f64]) {
        out[0] = self.v;
        out[1] = self.dr;
        out[2] = self.dlat;
        out[3] = self.dlon;
    }
}

// The horizon's time, −1.0 without one.
impl Values<f64> for Option<f64> {
    ghost places = { 1 };

    ghost listed = { time };

    fn put(self, out: &mut [f64]) {
        out[0] = self.unwrap_or(-1.0);
    }
}

// The number of an answer.
pub fn number(answer: Result<(), Refusal>) -> u8
    ensures { result ≡ answer_number answer }
{
    match answer {
        Ok(()) => 0,
        Err(refusal) => u8::from(refusal),
    }
}

// kept: a loop, for `fill` asks that copying cannot fail, which is not known of every type.
fn clear<A: Copy>(nought: A, out: &mut [A])
    ensures { out.new ≡ replicate (length out.old) nought }
{
    for place in out.iter_mut() {
        *place = nought;
    }
}

// The same, and its values in their places: `nought` in each after a refusal during the work, nothing after one before it.
pub fn store<A: Copy, V: Values<A> + Copy>(
    answer: Result<V, Refusal>,
    nought: A,
    out: &mut [A],
) -> u8
    requires { length out.old ≡ V.places }
    ensures number { result ≡ answer_number answer }
    ensures values { out.new ≡ told_in nought V.listed answer out.old }
{
    match answer {
        Ok(values) => {
            values.put(out);
            0
        }
        Err(refusal) => {
            let number = u8::from(refusal);
            if number > 5 {
                clear(nought, out);
            }
            number
        }
    }
}
