// Replays the second program's cases from one data file, and prints for each what placer and runner print, and of its
// points from the start values both answers, how many there are, and a checksum of the buffer; then the same with a buffer
// that is one byte too short; then what becomes of its tries. A case is the length of a monitor file and of a trace, four
// bytes each, the lowest first, and then both.
#![tactic(auto)]

ghost use Rattle.std.specs.Prelude.{◌<◌};

use answers::Answer;
use calls::Pointing;
use std::fs::File;
use survey::Fates;

// The most cases that are read.
const CASES: usize = 1000;

// Bytes for the points of the longest trace, and for one point more.
const BUFFER: usize = 458836;

// What stands in a buffer before it is lent.
const UNWRITTEN: u8 = 165;

fn main(rt: HostRuntime) {
    if let Ok(mut data) = File::open(&rt, "cases.bin") {
        let _ = replay_all(&rt, &mut data);
    }
}

// The cases, up to the first that cannot be read.
fn replay_all(rt: &HostRuntime, data: &mut File) -> Option<()> {
    for _ in 0..CASES {
        replay(rt, data)?;
    }
    Some(())
}

// A length, of which three bytes count; none at the end of the data.
fn read_length(data: &mut File) -> Option<usize> {
    let mut four = [0u8; 4];
    input::read_on(data, &mut four, 0)
        .ok()
        .filter(|&count| count == 4)?;
    let [a, b, c, _] = four;
    Some(usize::from(a) + usize::from(b) * 256 + usize::from(c) * 65536)
}

// The next bytes of the data, into the first of a buffer; none where they do not fit.
fn read_part<'a>(data: &mut File, into: &'a mut [u8], n: usize) -> Option<&'a [u8]> {
    let part = into.get_mut(..n)?;
    let count = match input::read_on(data, part, 0) {
        Ok(count) => count,
        Err(stopped) => stopped.count,
    };
    part.get(..count)
}

// One case, read from the data; none where it ends, or where a length fits no buffer.
fn replay(rt: &HostRuntime, data: &mut File) -> Option<()> {
    let n = read_length(data)?;
    let k = read_length(data)?;
    let mut file = [0u8; 9000];
    let mut trace = [0u8; output::TRACE_BYTES];
    let file = read_part(data, &mut file, n)?;
    let trace = read_part(data, &mut trace, k)?;
    show_case(rt, file, trace);
    Some(())
}

// The lines of one case: placer's and runner's, its points, its tries, and its touched pairs.
fn show_case(rt: &HostRuntime, file: &[u8], trace: &[u8]) {
    let mut out = [0u8; output::OUTPUT_BYTES];
    let table = output::placer_lines(file, &mut out);
    write(rt, &out[..table]);
    let runs = output::runner_lines(file, trace, &mut out);
    write(rt, &out[..runs]);
    if output::TRACE_BYTES < trace.len() {
        return;
    }
    let room = (trace.len() / trace::FRAME + 1) * point::POINT;
    let mut buffer = [UNWRITTEN; BUFFER];
    if let Some(part) = buffer.get_mut(..room + point::POINT) {
        let got = points_in(file, trace, part);
        show_answer(rt, got.plain);
        show_answer(rt, got.table);
        show(rt, 0, got.count, sum_of(part));
    }
    let mut short = [UNWRITTEN; BUFFER];
    if let Some(part) = short.get_mut(..room - 1) {
        let got = points_in(file, trace, part);
        show_answer(rt, got.plain);
        show(rt, 0, got.count, sum_of(part));
    }
    show_tries(rt, file);
    show_pairs(rt, file);
}

// The points of a case from its start values.
fn points_in(file: &[u8], trace: &[u8], out: &mut [u8]) -> Pointing {
    let start = monitor::start_state(file);
    monitor::points(file, trace, start, out)
}

// The chosen tries and how many there are, or the file's refusal; then a line for each try: 00 where it is chosen, FF where
// it is false at the start values, or the pass, the region and the state that break it.
fn show_tries(rt: &HostRuntime, file: &[u8]) {
    let mut table = [0u8; output::OUTPUT_BYTES];
    let placed = monitor::place(file, &mut table);
    let told = survey::fates_of(file);
    match placed.placed() {
        Ok(_) => show(rt, 0, usize::from(placed.chosen), told.tries),
        Err(answer) => show_answer(rt, answer),
    }
    for i in 0..told.tries.min(syntax::TRIES) {
        show_fate(rt, told, i);
    }
}

// How many pairs of region and guard are touched, and the length of the table; 0 of a refused file.
fn show_pairs(rt: &HostRuntime, file: &[u8]) {
    let mut table = [0u8; output::OUTPUT_BYTES];
    let placed = monitor::place(file, &mut table);
    show(rt, 0, usize::from(placed.pairs), placed.length);
}

// What becomes of one try.
fn show_fate(rt: &HostRuntime, told: Fates, i: usize)
    requires { i < 16 }
{
    let state = usize::from(told.states[i]);
    let region = usize::from(told.regions[i]);
    if sets::has(told.chosen, i as u32) {
        show(rt, 0, 0, 0);
    } else if told.passes[i] == 0 {
        show(rt, 255, 0, 0);
    } else {
        show(rt, told.passes[i], region, state);
    }
}

// An answer's line.
fn show_answer(rt: &HostRuntime, answer: Answer) {
    show(rt, answer.number, answer.first, answer.second);
}

// A line of ten digits.
fn show(rt: &HostRuntime, number: u8, first: usize, second: usize) {
    let mut out = [0u8; 11];
    let end = lines::put_answer(&mut out, 0, number, first, second);
    if let Some(line) = out.get(..end) {
        write(rt, line);
    }
}

// What cannot be written is missing from the output.
fn write(rt: &HostRuntime, bytes: &[u8]) {
    let _ = rt.write_all(bytes);
}

// A checksum below 65,521.
fn sum_of(bytes: &[u8]) -> usize
    ensures { result < 65521 }
{
    let mut sum = 1;
    for &byte in bytes {
        sum = (sum * 31 + usize::from(byte)) % 65521;
    }
    sum
}
