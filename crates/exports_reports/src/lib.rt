// The library for C and Rust (include/station_watch.h), its functions on the complete report of a recording: checking a list against it, and writing it. Each
// answers 0 or a refusal's number; on a refusal nothing lent is changed, answers included.
#![tactic(auto)]

ghost use Rattle.std.specs.Prelude.{◌≡◌, length};
ghost use Rattle.refusal.specs.Answer.{number, or_kept};
ghost use Rattle.complete_report.specs.Report.{checked_report, delivered_report, list_with};
ghost use Rattle.complete_report.specs.Lists.{violations_in};
ghost use Rattle.exports_reports.specs.Comparisons.{comparison_number, entry_number, tick_number, step_number};

use complete_report::{Comparison, VIOLATION_WORDS};

// 0 the same, 1 a violation stands there in the complete report, 2 the complete report has ended.
fn comparison_number(comparison: Comparison) -> u32
    ensures { result ≡ comparison_number comparison }
{
    match comparison {
        Comparison::Same => 0,
        Comparison::Differs(_, _) => 1,
        Comparison::Ends(_) => 2,
    }
}

fn entry_number(comparison: Comparison) -> usize
    ensures { result ≡ entry_number comparison }
{
    match comparison {
        Comparison::Same => 0,
        Comparison::Differs(entry, _) | Comparison::Ends(entry) => entry,
    }
}

fn tick_number(comparison: Comparison) -> u64
    ensures { result ≡ tick_number comparison }
{
    match comparison {
        Comparison::Differs(_, violation) => violation.tick,
        Comparison::Same | Comparison::Ends(_) => 0,
    }
}

fn step_number(comparison: Comparison) -> u64
    ensures { result ≡ step_number comparison }
{
    match comparison {
        Comparison::Differs(_, violation) => violation.step,
        Comparison::Same | Comparison::Ends(_) => 0,
    }
}

// Compares a list of violations with the complete report of a sheet's rule over a recording: refusals 1 to 10, 23, 24, 16.
// Kept: eight parameters, those of the C function of this name.
pub fn sw_check_report(
    sheet: &[u8],
    rule: usize,
    recording: &[u8],
    claimed: &[[u64; VIOLATION_WORDS]],
    difference: &mut u32,
    entry: &mut usize,
    tick: &mut u64,
    step: &mut u64,
) -> u32
    ensures value { result ≡ number (checked_report sheet.now rule recording.now (violations_in claimed.now)) }
    ensures difference_after { difference.new ≡ or_kept comparison_number (checked_report sheet.now rule recording.now (violations_in claimed.now)) difference.old }
    ensures entry_after { entry.new ≡ or_kept entry_number (checked_report sheet.now rule recording.now (violations_in claimed.now)) entry.old }
    ensures tick_after { tick.new ≡ or_kept tick_number (checked_report sheet.now rule recording.now (violations_in claimed.now)) tick.old }
    ensures step_after { step.new ≡ or_kept step_number (checked_report sheet.now rule recording.now (violations_in claimed.now)) step.old }
{
    match report_check::check(sheet, rule, recording, claimed) {
        Ok(comparison) => {
            *difference = comparison_number(comparison);
            *entry = entry_number(comparison);
            *tick = tick_number(comparison);
            *step = step_number(comparison);
            0
        }
        Err(refusal) => refusal::number(refusal),
    }
}

// Writes the complete report of a sheet's rule over a recording at the start of the list, and answers how many violations it has: refusals 1 to 10, 23, 24, 16, 22.
pub fn sw_complete_report(
    sheet: &[u8],
    rule: usize,
    recording: &[u8],
    report: &mut [[u64; VIOLATION_WORDS]],
    written: &mut usize,
) -> u32
    ensures value { result ≡ number (delivered_report sheet.now rule recording.now (length report.old)) }
    ensures report_after { violations_in report.new ≡ list_with (delivered_report sheet.now rule recording.now (length report.old)) (violations_in report.old) }
    ensures written_after { written.new ≡ or_kept length (delivered_report sheet.now rule recording.now (length report.old)) written.old }
{
    refusal::put_answer(
        report_writing::write(sheet, rule, recording, report),
        written,
    )
}
