// The band-pass program of document 01: samples on standard input, a line each, and their passed values on standard output. `answer` decides all of it.
#![tactic(auto)]

ghost use Rattle.std.specs.Prelude.{◌≡◌, ◌++◌, ◌+◌, ◌*◌, ◌/◌, ◌≤◌, ◌<◌, length, take};
ghost use Rattle.io.specs.Counts.{IsPrefixLen};
ghost use Rattle.hexadecimal.specs.Digits.{float_at};
ghost use Rattle.hexadecimal.specs.Printing.{Printed};
ghost use Rattle.band_pass_program.specs.Text.{fault_number, is_line, text_refusal, column, line_text, lines_text, summary_text, passed_text, numbers_text};
ghost use Rattle.band_pass_program.specs.Text.{answer as answer_of};

// Why a text is refused.
#[derive(Clone, Copy, Debug, PartialEq, Eq)]
enum Fault {
    // There are more than 4,096 lines.
    Bounds,
    // The text is not lines of two words.
    Format,
}

// The number that is printed.
impl From<Fault> for u8 {
    ghost from_gives = { λ f n. n ≡ fault_number f };

    fn from(fault: Fault) -> u8 {
        match fault {
            Fault::Bounds => 2,
            Fault::Format => 11,
        }
    }
}

// The double whose bits stand at `at`.
#[tactic(auto, unfolding(hexadecimal::specs::Digits::float_at))]
fn float_at(text: &[u8], at: usize) -> f64
    ensures { result ≡ float_at text.now at }
{
    hexadecimal::float(hexadecimal::word(text, at).unwrap_or(0))
}

// Whether two words and a line feed stand from `at` on.
#[tactic(auto, using(std::proofs::lemmas::Bool::Decides::nat_tests), unfolding(crate::specs::Text::is_line))]
fn is_line(text: &[u8], at: usize) -> bool
    requires { at < 1000000 }
    ensures { result ≡ is_line text.now at }
{
    let last = at + 32;
    last < text.len()
        && hexadecimal::word(text, at).is_some()
        && hexadecimal::word(text, at + 16).is_some()
        && text[last] == b'\n'
}

// Refuses a text that is not lines, or too many.
#[tactic(auto, using(crate::proofs::ProgramText::scan_ends, crate::proofs::ProgramText::scan_over, crate::proofs::ProgramText::scan_bad, crate::proofs::ProgramText::scan_goes))]
fn refusal(text: &[u8]) -> Result<(), Fault>
    ensures { result ≡ text_refusal text.now }
{
    for line in 0..4096 {
        let at = 33 * line;
        if text.len() <= at {
            return Ok(());
        }
        if !is_line(text, at) {
            return Err(Fault::Format);
        }
    }
    if 135168 < text.len() {
        Err(Fault::Bounds)
    } else {
        Ok(())
    }
}

// The doubles that stand at `from` in each line.
#[tactic(auto, using(crate::proofs::ProgramText::column_turn, crate::proofs::ProgramText::column_done))]
fn read_column(text: &[u8], from: usize, out: &mut [f64])
    requires { (from ≤ 16) × (length out.old ≤ 4096) }
    ensures { out.new ≡ column text.now from (length out.old) }
{
    for k in 0..out.len() {
        out[k] = float_at(text, from + 33 * k);
    }
}

fn put_line(time: f64, value: f64, out: &mut [u8], at: usize)
    requires { at + 33 ≤ length out.old }
    ensures { Printed (line_text time value) out.old at out.new (at + 33) }
{
    hexadecimal::put_word(hexadecimal::pattern(time), out, at);
    hexadecimal::put_word(hexadecimal::pattern(value), out, at + 16);
    out[at + 32] = b'\n';
}

fn put_summary(runs: usize, passed: usize, out: &mut [u8], at: usize) -> usize
    requires { at + 64 ≤ length out.old }
    ensures { Printed (summary_text runs passed) out.old at out.new result }
{
    let a = hexadecimal::put_bytes(b"runs ", out, at);
    let b = hexadecimal::put_count(runs, out, a);
    let c = hexadecimal::put_bytes(b" passed ", out, b);
    let d = hexadecimal::put_count(passed, out, c);
    hexadecimal::put_bytes(b"\n", out, d)
}

// Times and as many values, no more than a text has lines.
#[derive(Clone, Copy)]
struct Samples<'a> {
    times: &'a [f64],
    values: &'a [f64],
    ghost paired: { length values.now ≡ length times.now },
    ghost few: { length times.now ≤ 4096 },
}

impl<'a> Samples<'a> {
    // A line for each.
    fn put_lines(self, out: &mut [u8; 135300])
        ensures { Printed (lines_text self.entry.times.now self.entry.values.now) out.old 0 out.new
            (33 * length self.entry.times.now) }
    {
        for i in 0..self.times.len() {
            put_line(self.times[i], self.values[i], out, 33 * i);
        }
    }

    // The lines, and how many runs there are and how many of them were passed.
    #[tactic(auto, using(crate::proofs::ProgramText::passed_prints))]
    fn put_passed(self, out: &mut [u8; 135300]) -> usize
        ensures { Printed (passed_text self.entry.times.now self.entry.values.now) out.old 0 out.new result }
    {
        self.put_lines(out);
        let counts = filter::kernel::count_runs(self.times);
        put_summary(counts.runs, counts.long, out, 33 * self.times.len())
    }
}

// The arrays that a text's samples and passed values stand in, and what the filter works in.
#[derive(Drop)]
struct Room {
    times: [f64; 4096],
    values: [f64; 4096],
    passed: [f64; 4096],
    scratch: [f64; 32768],
}

fn answer_numbers(
    samples: Samples<'_>,
    passed: &mut [f64],
    scratch: &mut [f64; 32768],
    out: &mut [u8; 135300],
) -> usize
    requires { length passed.old ≡ length samples.times.now }
    ensures { Printed (numbers_text samples.entry.times.now samples.entry.values.now) out.old 0
        out.new result }
{
    match filter::band_pass(samples.times, samples.values, passed, scratch) {
        Ok(()) => Samples {
            times: samples.times,
            values: passed,
        }
        .put_passed(out),
        Err(refusal) => hexadecimal::put_refused(u8::from(refusal), out),
    }
}

// The first n lines of a text.
fn answer_lines(text: &[u8], n: usize, room: &mut Room, out: &mut [u8; 135300]) -> usize
    requires { n ≤ 4096 }
    ensures { Printed (numbers_text (column text.now 0 n) (column text.now 16 n)) out.old 0 out.new result }
{
    let times = &mut room.times[..];
    let values = &mut room.values[..];
    let passed = &mut room.passed[..];
    read_column(text, 0, &mut times[..n]);
    read_column(text, 16, &mut values[..n]);
    let samples = Samples {
        times: &times[..n],
        values: &values[..n],
    };
    answer_numbers(samples, &mut passed[..n], &mut room.scratch, out)
}

// How many lines a text of lines has.
#[tactic(auto, using(crate::proofs::ProgramText::text_lines))]
fn count_lines(text: &[u8]) -> usize
    requires { text_refusal text.now ≡ Ok tt }
    ensures { (result ≡ length text.now / 33) × (result ≤ 4096) }
{
    text.len() / 33
}

// What the program prints for a text goes to the head of out; how long it is.
fn answer(text: &[u8], room: &mut Room, out: &mut [u8; 135300]) -> usize
    ensures { (Printed (answer_of text.now) out.old 0 out.new result) × IsPrefixLen result out.new }
{
    if let Err(fault) = refusal(text) {
        return hexadecimal::put_refused(u8::from(fault), out);
    }
    let n = count_lines(text);
    answer_lines(text, n, room, out)
}

// Works out the answer to a text and writes it.
fn say_answer(text: &[u8]) {
    let mut room = Room {
        times: [0.0; 4096],
        values: [0.0; 4096],
        passed: [0.0; 4096],
        scratch: [0.0; 32768],
    };
    let mut out = [0u8; 135300];
    let k = answer(text, &mut room, &mut out);
    streams::write(&out[..k]);
}

// An input that cannot be read has no answer, and one that ends has.
fn main(rt: HostRuntime) {
    let mut text = [0u8; 135169];
    match streams::read(&mut rt.stdin(), &mut text) {
        Ok(n) => say_answer(&text[..n]),
        Err(_) => streams::say_unread(),
    }
}
