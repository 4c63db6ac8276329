// The table: headings, rows, and how many rows there are.
ghost use Rattle.std.specs.Prelude.{◌≡◌};
ghost use Rattle.published.specs.Judged.{is_within, counted};

use crate::text::Scientific;
use slices::Refusal;
use std::fmt;

// How many values were shown, and how many of them lie within the source's accuracy.
#[derive(Clone, Copy)]
pub struct Tally {
    pub shown: u32,
    pub within: u32,
}

// Whether what the engine gives lies within the accuracy; a refusal never does.
fn is_within(published: f64, ours: Result<f64, Refusal>, accuracy: f64) -> bool
    ensures { result ≡ is_within published ours accuracy }
{
    match ours {
        Ok(x) => numbers::magnitude(x - published) <= accuracy,
        Err(_) => false,
    }
}

fn count(t: Tally, within: bool) -> Tally
    ensures { result ≡ counted t within }
{
    Tally {
        shown: t.shown.wrapping_add(1),
        within: t.within.wrapping_add(u32::from(within)),
    }
}

// The heading of a group: what is shown, and the columns.
#[derive(Clone, Copy)]
pub struct Heading<'a>(pub &'a str);

impl<'a> fmt::Display for Heading<'a> {
    fn fmt<W: fmt::Write>(&self, f: &mut fmt::Formatter<W>) -> fmt::Result {
        let what = self.0;
        write!(
            f,
            "\n{what}\n                                         published              ours  difference  accuracy"
        )
    }
}

// A row, with so many decimals.
#[derive(Clone, Copy)]
struct Line<'a> {
    what: &'a str,
    decimals: usize,
    published: f64,
    ours: Result<f64, Refusal>,
    accuracy: f64,
    verdict: &'a str,
}

impl<'a> fmt::Display for Line<'a> {
    fn fmt<W: fmt::Write>(&self, f: &mut fmt::Formatter<W>) -> fmt::Result {
        let what = self.what;
        let published = self.published;
        let decimals = self.decimals;
        write!(f, "  {what:<24}{published:>24.decimals$}")?;
        match self.ours {
            Ok(x) => write!(f, "{x:>18.decimals$}    {}", Scientific(x - published))?,
            Err(refusal) => write!(f, "        refused {:<14}", u8::from(refusal))?,
        }
        let verdict = self.verdict;
        write!(f, "  {}{verdict:>9}", Scientific(self.accuracy))
    }
}

// Writes a row, the values with so many decimals, and counts it.
pub fn row(
    t: Tally,
    what: &str,
    decimals: usize,
    published: f64,
    ours: Result<f64, Refusal>,
    accuracy: f64,
) -> Tally
    ensures { result ≡ counted t (is_within published ours accuracy) }
{
    let within = is_within(published, ours, accuracy);
    crate::text::say(Line {
        what,
        decimals,
        published,
        ours,
        accuracy,
        verdict: if within { "within" } else { "OUTSIDE" },
    });
    count(t, within)
}

// The last line: how many lie within.
impl fmt::Display for Tally {
    fn fmt<W: fmt::Write>(&self, f: &mut fmt::Formatter<W>) -> fmt::Result {
        let within = self.within;
        let shown = self.shown;
        write!(f, "\n{within} of {shown} within")
    }
}
