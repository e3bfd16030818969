#![tactic(auto)]

// Stored checks, runs and writings, one after the other on standard input. A check is answered by two lines on standard output, a run by two lines, of
// the full run and of the quiet one, a run in a manner by one line, and so is a writing.
//
// A case is written so, every number with its lowest byte first: 0 for a run, 1 for a writing, 2 for a run in a manner, 3 for a check; the length of the
// source and the source. A check has no more. Then the lengths of the word table, in words, and of the name list, in records; the number of sizes and the sizes. Then a run has the length
// of the grid and its entries; the lengths of scratch and marks; the start time and the number of steps; the length of the value list and the list. A
// run in a manner has the same, and a tail: the manner, 0 full, 1 quiet, 2 pausing, 3 resuming; whether rows are counted, 0 or 1; the number of the
// field; the number of counts; the marks, one byte each; the counts. A writing has the length of the earlier grid and its entries; the later grid
// likewise; the time; the length of the room. The times and the number of steps have eight bytes, all other numbers four.
//
// The lines of a check are the reply with the numbers of its spelling; and the sums of the word table and of the name list that are left, with the
// first rule of the profile of one move that it misses, and the number and place told with that.
// The line of a run has the report, what became of scratch and marks, and the grid: `number place line cell steps count SCRATCH MARKS : g0 g1 ..`.
// The line of a run in a manner has the marks themselves, in hexadecimal digits, two for each, and the counts, also where nothing is counted:
// `number place line cell steps count SCRATCH : g0 g1 .. : m0m1.. : c0 c1 ..`.
// The line of a writing has what was returned, and the room's bytes in hexadecimal digits: `number place length : b0b1..`.

mod answers;
mod checks;
mod lines;
mod reading;
mod rooms;
mod runs;
mod writings;

// Answers all cases on standard input, of which no more is read than they have. A proved loop has to end, and nothing says that the input does: the cases are
// counted up to a number that no input has.
fn main(rt: HostRuntime) {
    let mut input = rt.stdin();
    for _ in 0..u64::MAX {
        if answers::answer_next(&rt, &mut input).is_err() {
            break;
        }
    }
}
