// Writing the complete report of a recording (document 02, point 8): its violations are stored tick by tick, and then put into order. A list with an entry for each
// tick is long enough, and then each tick is evaluated once; for a shorter one they are counted first.
#![tactic(auto)]

ghost use Rattle.std.specs.Prelude.{◌≡◌, ◌≤◌, leb, length};
ghost use Rattle.refusal.specs.Answer.{answer_of};
ghost use Rattle.nodes.specs.Table.{formula_in};
ghost use Rattle.complete_report.specs.Report.{complete, if_room, delivered_report, how_many, with_front, list_with};
ghost use Rattle.complete_report.specs.Lists.{violations_in};
ghost use Rattle.report_writing.specs.Collecting.{unordered};

use complete_report::{VIOLATION_WORDS, Violation, store_violation};
use nodes::TABLE_WORDS;
use recorded_rule::Recorded;
use refusal::Refusal;

// Stores the violations of the rule in the table at the start of the list, tick by tick, and answers how many there are.
fn collect(recorded: &Recorded, list: &mut [[u64; VIOLATION_WORDS]]) -> usize
    requires recording_in_bounds { length (unordered (formula_in 64 recorded.now.nodes.now 0 0) recorded.now.recording.now) ≤ length list.old }
    ensures value { result ≡ length (unordered (formula_in 64 recorded.now.nodes.now 0 0) recorded.now.recording.now) }
    ensures list_after { violations_in list.new ≡ with_front (unordered (formula_in 64 recorded.now.nodes.now 0 0) recorded.now.recording.now) (violations_in list.old) }
{
    let mut count = 0;
    for tick in 0..recorded.recording.len() {
        if let Some(step) = recorded.false_step(tick) {
            let tick = tick as u64;
            store_violation(list, count, Violation { tick, step });
            count += 1;
        }
    }
    count
}

// How many violations the rule in the table has.
fn count_violations(recorded: &Recorded) -> usize
    ensures { result ≡ length (unordered (formula_in 64 recorded.now.nodes.now 0 0) recorded.now.recording.now) }
{
    let mut count = 0;
    for tick in 0..recorded.recording.len() {
        if recorded.false_step(tick).is_some() {
            count += 1;
        }
    }
    count
}

// Whether a list of so many entries takes the report.
#[tactic(auto, using(crate::proofs::Delivered::long_enough))]
fn has_room(recorded: &Recorded, room: usize) -> bool
    ensures { result ≡ leb (length (unordered (formula_in 64 recorded.now.nodes.now 0 0) recorded.now.recording.now)) room }
{
    recorded.recording.len() <= room || count_violations(recorded) <= room
}

// Writes the complete report of the rule in the table at the start of the list.
fn write_report(recorded: &Recorded, list: &mut [[u64; VIOLATION_WORDS]]) -> Result<usize, Refusal>
    ensures result_value { answer_of result ≡ how_many (if_room (length list.old) (complete (formula_in 64 recorded.now.nodes.now 0 0) recorded.now.recording.now)) }
    ensures list_after { violations_in list.new ≡ list_with (if_room (length list.old) (complete (formula_in 64 recorded.now.nodes.now 0 0) recorded.now.recording.now)) (violations_in list.old) }
{
    if !has_room(recorded, list.len()) {
        return Err(Refusal::BufferTooShort);
    }
    let count = collect(recorded, list);
    report_order::sort(&mut list[..count]);
    Ok(count)
}

// Writes the complete report of a sheet's rule over a recording at the start of the list, and answers how many violations it has: refusals 1 to 10, 23, 24, 16 for a
// recording above 65,535 bytes, 22.
#[tactic(auto, using(recorded_rule::proofs::Admitted::recorded_short))]
pub fn write(
    sheet: &[u8],
    rule: usize,
    recording: &[u8],
    list: &mut [[u64; VIOLATION_WORDS]],
) -> Result<usize, Refusal>
    ensures result_value { answer_of result ≡ how_many (delivered_report sheet.now rule recording.now (length list.old)) }
    ensures list_after { violations_in list.new ≡ list_with (delivered_report sheet.now rule recording.now (length list.old)) (violations_in list.old) }
{
    let mut nodes = [0u32; TABLE_WORDS];
    recorded_rule::read_rule(sheet, rule, recording, &mut nodes)?;
    let recorded = Recorded {
        nodes: &nodes,
        recording,
    };
    write_report(&recorded, list)
}
