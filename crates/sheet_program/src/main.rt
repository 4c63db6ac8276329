// The sheet of one submission: its text on standard input, line by line (crate `submission_text`), and the sheet on standard output. `answer` decides what
// is printed.
#![tactic(auto)]

ghost use Rattle.std.specs.Prelude.{◌≡◌, ◌+◌, ◌*◌, ◌/◌, ◌%◌, ◌≤◌, ◌<◌, ℕ, List, Float, min, length, take};
ghost use Rattle.std.specs.Io.{ReadsAtMost};
ghost use Rattle.io.specs.Counts.{IsPrefixLen};
ghost use Rattle.hexadecimal.specs.Printing.{Printed};
ghost use Rattle.sheet_program.specs.Text.{number_at, whole_at, count_at, next_at, key_at, byte_at, values_from, places_of, Near, head_text};
ghost use Rattle.sheet_program.specs.Text.{term_text, row_text, rows_text};
ghost use Rattle.sheet_program.specs.declared.Stop.TheVariants.{Unread, Text, Numbers};

use slices::Refusal;
use std::fmt;
use std::io::Read;
use submission_text::Fault;

// ---- why there is no sheet

// What an input is instead of a submission that has a sheet.
#[derive(Clone, Copy)]
enum Stop {
    // It could not be read to its end.
    Unread,
    // Its text is refused.
    Text(Fault),
    // What the text says is refused.
    Numbers(Refusal),
}

impl From<std::io::Error> for Stop {
    ghost from_gives = { λ _ stop. stop ≡ Unread };

    fn from(_: std::io::Error) -> Stop {
        Stop::Unread
    }
}

impl From<Fault> for Stop {
    ghost from_gives = { λ fault stop. stop ≡ Text fault };

    fn from(fault: Fault) -> Stop {
        Stop::Text(fault)
    }
}

impl From<Refusal> for Stop {
    ghost from_gives = { λ refusal stop. stop ≡ Numbers refusal };

    fn from(refusal: Refusal) -> Stop {
        Stop::Numbers(refusal)
    }
}

// What is said of it behind `no sheet`.
impl fmt::Display for Stop {
    fn fmt<W: fmt::Write>(&self, f: &mut fmt::Formatter<W>) -> fmt::Result {
        f.write_str(match self {
            Stop::Text(Fault::Degree) | Stop::Numbers(Refusal::Degree) => {
                ": the degree is not from 2 to 180"
            }
            Stop::Text(Fault::Bounds) | Stop::Numbers(Refusal::Count) => {
                ": beyond the program's bounds: degree 12, 2 to 8 fields, 4 nodes, 12000 lines in every other list"
            }
            Stop::Text(Fault::Format) => ": the text is not in the format of a submission",
            Stop::Numbers(Refusal::Value) => {
                ": a number is not finite, or a time is not from 0 to 2147483648"
            }
            Stop::Numbers(Refusal::Order) => ": the times of a list do not rise",
            Stop::Numbers(Refusal::NotFinite) => ": a number worked out is not finite",
            _ => "",
        })
    }
}

// ---- what the numbers of a text say

// The number at `at`, NaN behind the last.
// kept: here and below a list and a place in it, as in `numbers[at]`; a struct of both would be made anew for each number.
fn number_at(numbers: &[f64], at: usize) -> f64
    ensures { result ≡ number_at numbers.now at }
{
    if at < numbers.len() {
        return numbers[at];
    }
    f64::NAN
}

// The word that a number was read from, at most `most`.
#[tactic(auto, using(crate::proofs::ReadAndPrinted::whole_is))]
fn whole_at(numbers: &[f64], at: usize, most: u64) -> u64
    ensures { (result ≡ whole_at numbers.now at most) × (result ≤ most) }
{
    hexadecimal::pattern(number_at(numbers, at)).min(most)
}

// A section's count, which stands in front of its words.
fn count_at(numbers: &[f64], at: usize) -> usize
    ensures { (result ≡ count_at numbers.now at) × (result ≤ 12000) }
{
    whole_at(numbers, at, 12000) as usize
}

// Where the next section's count stands, if a line of this one has so many words.
#[tactic(auto, using(crate::proofs::ReadAndPrinted::far, crate::proofs::ReadAndPrinted::next_is))]
fn next_at(numbers: &[f64], at: usize, words: usize) -> usize
    requires { (at ≤ 100000000) × (words ≤ 185) }
    ensures { (result ≡ next_at numbers.now at words) × (result ≤ at + 2220001) }
{
    at + 1 + words * count_at(numbers, at)
}

// Of each line of `step` numbers, the count in front of it among them, `width` from the `skip`-th on.
#[derive(Clone, Copy)]
struct Lines {
    skip: usize,
    step: usize,
    width: usize,
    ghost early: { skip ≤ 3 },
    ghost short: { step ≤ 185 },
    ghost some: { (0 < width) × (width ≤ 185) },
}

impl Lines {
    fn new(skip: usize, step: usize, width: usize) -> Lines
        requires { (skip ≤ 3) × (step ≤ 185) × (0 < width) × (width ≤ 185) }
        ensures { (result.skip ≡ skip) × (result.step ≡ step) × (result.width ≡ width) }
    {
        Lines { skip, step, width }
    }
}

// Where the i-th of the numbers stands behind the first.
#[tactic(auto, using(crate::proofs::ReadAndPrinted::lines_far))]
fn offset(i: usize, lines: Lines) -> usize
    requires { i < 100000 }
    ensures { (result ≡ lines.step * (i / lines.width) + i % lines.width) × (result ≤ 18600000) }
{
    lines.step * (i / lines.width) + i % lines.width
}

// What a number of a text says, by its word.
trait Said: Copy {
    ghost said: { List Float → ℕ → Self };

    fn say_at(numbers: &[f64], at: usize) -> Self
        ensures { result ≡ said numbers.now at };
}

impl Said for f64 {
    ghost said = { λ numbers at. number_at numbers at };

    fn say_at(numbers: &[f64], at: usize) -> f64 {
        number_at(numbers, at)
    }
}

// A key is a whole number, and any above 2^31 is as good as the next above it.
impl Said for i64 {
    ghost said = { λ numbers at. key_at numbers at };

    fn say_at(numbers: &[f64], at: usize) -> i64 {
        whole_at(numbers, at, 2147483649) as i64
    }
}

impl Said for u8 {
    ghost said = { λ numbers at. byte_at numbers at };

    fn say_at(numbers: &[f64], at: usize) -> u8 {
        whole_at(numbers, at, 255) as u8
    }
}

// The first number stands at `from`.
#[tactic(auto, using(crate::proofs::ReadAndPrinted::values_turn, crate::proofs::ReadAndPrinted::values_done))]
fn values_from<T: Said>(numbers: &[f64], from: usize, lines: Lines, out: &mut [T])
    requires { (from ≤ 100000000) × (length out.old ≤ 100000) }
    ensures { out.new ≡ values_from (T.said numbers.now) from lines.step lines.width 0 (length out.old) }
{
    for i in 0..out.len() {
        out[i] = T::say_at(numbers, from + offset(i, lines));
    }
}

// ---- printing

fn put_head(kept: usize, entries: usize, out: &mut [u8]) -> usize
    requires { 64 ≤ length out.old }
    ensures { (Printed (head_text kept entries) out.old 0 out.new result) × (result ≤ 64) }
{
    let a = hexadecimal::put_bytes(b"kept ", out, 0);
    let b = hexadecimal::put_count(kept, out, a);
    let c = hexadecimal::put_bytes(b" final ", out, b);
    let d = hexadecimal::put_count(entries, out, c);
    hexadecimal::put_bytes(b"\n", out, d)
}

// A word and the byte behind it.
fn put_term(x: f64, behind: u8, out: &mut [u8], at: usize)
    requires { at + 17 ≤ length out.old }
    ensures { Printed (term_text x behind) out.old at out.new (at + 17) }
{
    hexadecimal::put_word(hexadecimal::pattern(x), out, at);
    out[at + 16] = behind;
}

// The lists of a sheet.
#[derive(Clone, Copy)]
struct Columns<'a> {
    times: &'a [f64],
    raws: &'a [f64],
    detrended: &'a [f64],
    passed: &'a [f64],
}

// The i-th entry.
fn put_row(i: usize, sheet: Columns<'_>, out: &mut [u8], at: usize)
    requires { at + 68 ≤ length out.old }
    ensures { Printed (row_text i sheet.entry.times.now sheet.entry.raws.now sheet.entry.detrended.now sheet.entry.passed.now)
        out.old at out.new (at + 68) }
{
    put_term(number_at(sheet.times, i), b' ', out, at);
    put_term(number_at(sheet.raws, i), b' ', out, at + 17);
    put_term(number_at(sheet.detrended, i), b' ', out, at + 34);
    put_term(number_at(sheet.passed, i), b'\n', out, at + 51);
}

// So many entries from the i-th on.
fn put_rows(i: usize, n: usize, sheet: Columns<'_>, out: &mut [u8]) -> usize
    requires { (i ≤ 100000) × (n ≤ 500) × (34000 ≤ length out.old) }
    ensures { (Printed (rows_text i n sheet.entry.times.now sheet.entry.raws.now sheet.entry.detrended.now sheet.entry.passed.now)
        out.old 0 out.new result) × IsPrefixLen result out.new }
{
    for k in 0..n {
        put_row(i + k, sheet, out, 68 * k);
    }
    68 * n
}

// And what it means, for people, on standard error.
// kept: the answer's bytes are those that `put_refused` promises; of what `write!` prints nothing could be said (`hexadecimal::put_word`).
fn say_refused(rt: HostRuntime, n: u8, stop: Stop) {
    let mut out = [0u8; 64];
    let end = hexadecimal::put_refused(n, &mut out);
    if streams::write(&out[..end]) {
        let _ = eprintln!(rt; "pozsmeteg: no sheet{stop}");
    }
}

// An input that cannot be read has no answer, and one that is refused has.
fn say_stop(rt: HostRuntime, stop: Stop) {
    match stop {
        Stop::Unread => streams::say_unread(),
        Stop::Text(fault) => say_refused(rt, u8::from(fault), stop),
        Stop::Numbers(refusal) => say_refused(rt, u8::from(refusal), stop),
    }
}

// Whether the head could be written.
fn say_head(kept: usize, entries: usize) -> bool {
    let mut out = [0u8; 64];
    let end = put_head(kept, entries, &mut out);
    streams::write(&out[0..end])
}

// Writes so many entries from the i-th on, and whether it could.
fn say_rows(i: usize, n: usize, sheet: Columns<'_>) -> bool
    requires { (i ≤ 100000) × (n ≤ 500) }
{
    let mut out = [0u8; 34000];
    let end = put_rows(i, n, sheet, &mut out);
    streams::write(&out[..end])
}

// Writes the first entries, at most one for each time, in pieces, and none behind one that could not be written.
// kept: its bytes are those that `put_rows` promises, as in `say_refused`.
fn say_entries(kept: usize, sheet: Columns<'_>) {
    let last = kept.min(sheet.times.len()).min(12000);
    for i in (0..last).step_by(500) {
        let n = (last - i).min(500);
        if !say_rows(i, n, sheet) {
            return;
        }
    }
}

// ---- a submission's lists

// Where each section's count stands among the numbers.
#[derive(Clone, Copy)]
struct Places {
    held: usize,
    fields: usize,
    cstates: usize,
    caccs: usize,
    dstates: usize,
    daccs: usize,
    nodes: usize,
    observations: usize,
}

// With so many coefficients to a field.
#[tactic(auto, using(crate::proofs::ReadAndPrinted::places_are))]
fn places_in(numbers: &[f64], c: usize) -> Places
    requires { c ≤ 182 }
    ensures { (result ≡ places_of numbers.now c) × Near result }
{
    let held = next_at(numbers, 0, 1);
    let fields = next_at(numbers, held, 2 + c);
    let cstates = next_at(numbers, fields, 3 + c);
    let caccs = next_at(numbers, cstates, 7);
    let dstates = next_at(numbers, caccs, 2);
    let daccs = next_at(numbers, dstates, 7);
    let nodes = next_at(numbers, daccs, 2);
    let observations = next_at(numbers, nodes, 1);
    Places {
        held,
        fields,
        cstates,
        caccs,
        dstates,
        daccs,
        nodes,
        observations,
    }
}

#[tactic(auto, using(crate::proofs::ReadAndPrinted::far))]
fn product(width: usize, n: usize) -> usize
    requires { (width ≤ 185) × (n ≤ 12000) }
    ensures { result ≡ width * n }
{
    width * n
}

// Of the lines of a section, whose count stands at `at`, in the first places of out.
fn values_in<'a, T: Said>(numbers: &[f64], at: usize, lines: Lines, out: &'a mut [T]) -> &'a [T]
    requires { (at ≤ 20000000) × (length out.old ≤ 100000) }
    ensures { result.now ≡ take (min (lines.width * count_at numbers.now at) (length out.old))
        (values_from (T.said numbers.now) (at + lines.skip) lines.step lines.width 0 (length out.old)) }
{
    values_from(numbers, at + lines.skip, lines, out);
    let n = product(lines.width, count_at(numbers, at)).min(out.len());
    &out[..n]
}

// Writes the sheet of a submission.
fn tell(submission: inputs::Submission<'_>, scratch: &mut [f64]) -> Result<(), Refusal> {
    let mut t = [0.0; 12000];
    let mut x = [0.0; 12000];
    let mut y = [0.0; 12000];
    let mut z = [0.0; 12000];
    let n = submission.observed.times.len().min(12000);
    let times = &mut t[..n];
    let raws = &mut x[..n];
    let detrended = &mut y[..n];
    let passed = &mut z[..n];
    let counts = sheet::sheet(submission, times, raws, detrended, passed, scratch)?;
    if say_head(counts.kept, counts.finals) {
        let columns = Columns {
            times,
            raws,
            detrended,
            passed,
        };
        say_entries(counts.kept, columns);
    }
    Ok(())
}

// The lists are taken from the numbers, which stand at the head of scratch: nodes and observations.
fn with_observations(
    p: Places,
    inputs: inputs::Inputs<'_>,
    scratch: &mut [f64],
) -> Result<(), Refusal>
    requires { Near p }
{
    let mut r = [0.0; 4];
    let mut t = [0.0; 12000];
    let mut v = [0.0; 12000];
    let mut g = [0u8; 12000];
    let submission = inputs::Submission {
        inputs,
        nodes: values_in(scratch, p.nodes, Lines::new(1, 1, 1), &mut r),
        observed: inputs::Observed {
            times: values_in(scratch, p.observations, Lines::new(1, 3, 1), &mut t),
            values: values_in(scratch, p.observations, Lines::new(2, 3, 1), &mut v),
            good: values_in(scratch, p.observations, Lines::new(3, 3, 1), &mut g),
        },
    };
    tell(submission, scratch)
}

// The keys of a section's lines and the `width` numbers behind each.
fn keyed_in<'a>(
    numbers: &[f64],
    at: usize,
    width: usize,
    keys: &'a mut [i64],
    values: &'a mut [f64],
) -> inputs::Keyed<'a>
    requires { (at ≤ 20000000) × (0 < width) × (width ≤ 6) × (length keys.old ≤ 100000) × (length values.old ≤ 100000) }
{
    inputs::Keyed {
        keys: values_in(numbers, at, Lines::new(1, width + 1, 1), keys),
        values: values_in(numbers, at, Lines::new(2, width + 1, width), values),
    }
}

// The model, states and accelerometer values.
// kept: an array for each list, as long as the longest it may be, since memory is fixed.
fn with_lists(p: Places, degree: usize, c: usize, scratch: &mut [f64]) -> Result<(), Refusal>
    requires { Near p × (c ≤ 182) }
{
    let words = 2 + c;
    let mut h = [0.0; 184];
    let mut x = [0.0; 91];
    let mut y = [0.0; 91];
    let mut t = [0.0; 8];
    let mut g = [0.0; 1472];
    let mut ck = [0i64; 12000];
    let mut cs = [0.0; 72000];
    let mut dk = [0i64; 12000];
    let mut ds = [0.0; 72000];
    let mut ak = [0i64; 12000];
    let mut av = [0.0; 12000];
    let mut bk = [0i64; 12000];
    let mut bv = [0.0; 12000];
    let terms = c / 2;
    legendre::tabulate_a(degree, &mut x[..terms]);
    legendre::tabulate_b(degree, &mut y[..terms]);
    let model = inputs::Model {
        degree,
        static_field: values_in(scratch, p.held, Lines::new(1, words, words), &mut h),
        table_a: &x[..terms],
        table_b: &y[..terms],
        field_times: values_in(scratch, p.fields, Lines::new(1, words + 1, 1), &mut t),
        added: values_in(scratch, p.fields, Lines::new(2, words + 1, words), &mut g),
    };
    let inputs = inputs::Inputs {
        model,
        states: inputs::Pair {
            c: keyed_in(scratch, p.cstates, 6, &mut ck, &mut cs),
            d: keyed_in(scratch, p.dstates, 6, &mut dk, &mut ds),
        },
        accs: inputs::Pair {
            c: keyed_in(scratch, p.caccs, 1, &mut ak, &mut av),
            d: keyed_in(scratch, p.daccs, 1, &mut bk, &mut bv),
        },
    };
    with_observations(p, inputs, scratch)
}

// Answers a text that was read.
fn answer(reading: submission_text::Reading, scratch: &mut [f64]) -> Result<(), Stop> {
    if reading.section != 10 {
        return Err(Stop::Text(Fault::Format));
    }
    let c = submission_text::coefficients(reading.degree);
    let p = places_in(scratch, c);
    with_lists(p, reading.degree, c, scratch)?;
    Ok(())
}

// ---- the program

// Whether a header ends with a byte: a line feed, or in the last place any but a digit.
fn ends(b: u8, full: bool) -> bool {
    if full {
        !b.is_ascii_digit()
    } else {
        b == b'\n'
    }
}

// Reads a header, to its line feed. The last place takes each digit of a count for which there is no more room: of a count that long any digits may be left
// out (`submission_text`, proofs/LongCounts.antt). The turns are more than any input has bytes.
fn read_header<R: Read>(input: &mut R, line: &mut [u8]) -> std::io::Result<usize>
    requires { 0 < length line.old }
    ensures { ReadsAtMost result line.new }
{
    let last = line.len() - 1;
    let mut n = 0;
    for _ in 0..1000000000000000000u64 {
        let mut byte = [0u8; 1];
        if streams::read(input, &mut byte)? == 0 {
            return Ok(n);
        }
        line[n] = byte[0];
        if ends(byte[0], n == last) {
            return Ok(n + 1);
        }
        n = (n + 1).min(last);
    }
    Ok(n)
}

// The next line of the input, 0 bytes at its end.
fn read_line<R: Read>(
    input: &mut R,
    bytes: Option<usize>,
    line: &mut [u8],
) -> std::io::Result<usize>
    requires { 0 < length line.old }
    ensures { ReadsAtMost result line.new }
{
    let Some(bytes) = bytes else {
        return read_header(input, line);
    };
    if line.len() < bytes {
        return Ok(0);
    }
    streams::read(input, &mut line[..bytes])
}

// Reads the input, to its end or to its first fault. The turns are more than a submission has lines.
fn read_all<R: Read>(input: &mut R, numbers: &mut [f64]) -> Result<submission_text::Reading, Stop> {
    let mut line = [0u8; 3145];
    let mut reading = submission_text::start();
    for _ in 0..100000 {
        let n = read_line(input, submission_text::line_length(reading), &mut line)?;
        reading = submission_text::feed(&line[..n], reading, numbers)?;
        if reading.section == 10 {
            break;
        }
    }
    Ok(reading)
}

// Reads a submission and writes its sheet.
fn run<R: Read>(input: &mut R) -> Result<(), Stop> {
    let mut scratch = [0.0; 419784];
    let reading = read_all(input, &mut scratch)?;
    answer(reading, &mut scratch)
}

fn main(rt: HostRuntime) {
    if let Err(stop) = run(&mut rt.stdin()) {
        say_stop(rt, stop);
    }
}
