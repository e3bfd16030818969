// The beginning of a run: the source is read, and the run admitted.
ghost use Rattle.std.specs.Prelude.{◌≡◌, length, ◌<◌};
ghost use Rattle.grammar.specs.Checking.{rooms_fit};
ghost use Rattle.program.specs.Reason.{reason_number};
ghost use Rattle.run_calls.specs.Running.{counts_of, ask};
ghost use Rattle.run_admission.specs.Promises.Admitting.{request_of};
ghost use Rattle.run_source.specs.Promises.Sourcewise.{run_stopped, not_begun, counts_right, RunOpens};

use list_reader::checking::{ListRefusal, check_list};
use move_profile::flag_of;
use program::Rule;
use program::reply::{Reason, Refusal};
use read_source::load;
use run_admission::admit;
use run_meaning::Reach;
use run_steps::Report;

// A run that begins: the rule and its reach.
// Kept: only Clone and Copy, as `Reach`, which it holds.
#[derive(Clone, Copy)]
pub struct Opening {
    pub rule: Rule,
    pub reach: Reach,
}

// Why a run does not begin: the number and the place of the reply, and its line in the value list.
#[derive(Clone, Copy, Debug, PartialEq, Eq, Hash)]
pub struct Stop {
    pub number: u32,
    pub place: u32,
    pub line: u64,
}

impl From<Refusal> for Stop {
    ghost from_gives = { λ r s. s ≡ run_stopped r.number r.place 0 };

    fn from(refusal: Refusal) -> Self {
        Stop {
            number: refusal.number,
            place: refusal.place,
            line: 0,
        }
    }
}

impl From<ListRefusal> for Stop {
    ghost from_gives = { λ r s. s ≡ run_stopped (reason_number r.reason) 0 r.line };

    fn from(refusal: ListRefusal) -> Self {
        Stop {
            number: refusal.reason.number(),
            place: 0,
            line: refusal.line,
        }
    }
}

// The report of a run that does not begin.
impl From<Stop> for Report {
    ghost from_gives = { λ s r. r ≡ not_begun s };

    fn from(stop: Stop) -> Self {
        Report {
            number: stop.number,
            place: stop.place,
            line: stop.line,
            cell: 0,
            steps: 0,
            count: 0,
        }
    }
}

// Whether the row counts are right that a run is to keep, if any: of a field that there is, and one a row.
#[tactic(auto, using(crate::proofs::OpeningLaws::counts_off, crate::proofs::OpeningLaws::counts_far, crate::proofs::OpeningLaws::counts_near))]
fn counts_fit(counted: bool, field: u32, rows: usize, fields: u32, sizes: &[u32]) -> bool
    requires { 0 < length sizes.now }
    ensures { result ≡ counts_right counted field rows fields sizes.now }
{
    if !counted {
        return true;
    }
    if field >= fields {
        return false;
    }
    rows == sizes[0] as usize
}

// Reads a source and admits a run of it with its value list and its row counts. `scratch`, `marks` and `rows` are the lengths of scratch, marks and counts.
pub fn open_run(
    source: &[u8],
    words: &mut [u32],
    names: &mut [u32],
    sizes: &[u32],
    grid: &[i32],
    scratch: usize,
    marks: usize,
    values: &[u8],
    start: i64,
    steps: i64,
    rows: usize,
    counted: bool,
    field: u32,
) -> Result<Opening, Stop>
    ensures { RunOpens (rooms_fit (length words.old) (length names.old)) source.now words.old names.old (ask (request_of sizes.now grid.now scratch marks start steps) values.now (counts_of counted field rows)) result words.new names.new }
{
    let rule = load(source, words, names)?;
    let reach = admit(words, rule, sizes, grid, scratch, marks, start, steps)?;
    if !counts_fit(counted, field, rows, rule.fields, sizes) {
        return Err(Stop::from(Refusal::new(Reason::RowCounts, 0)));
    }
    let flag = flag_of(source, words, names, rule);
    let first = start as u32;
    let last = first + steps as u32;
    check_list(values, words, rule, flag, sizes, first, last)?;
    Ok(Opening { rule, reach })
}
