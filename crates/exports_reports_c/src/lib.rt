// The library for C and Rust (include/station_watch.h), its functions on the complete report of a recording: what C links. Each calls the function of the crate `exports_reports` that has its name, and has its clauses.
#![tactic(auto)]

ghost use Rattle.std.specs.Prelude.{◌≡◌, length};
ghost use Rattle.refusal.specs.Answer.{number, or_kept};
ghost use Rattle.complete_report.specs.Report.{checked_report, delivered_report, list_with};
ghost use Rattle.complete_report.specs.Lists.{violations_in};
ghost use Rattle.exports_reports.specs.Comparisons.{comparison_number, entry_number, tick_number, step_number};

use complete_report::VIOLATION_WORDS;

// Compares a list of violations with the complete report of a sheet's rule over a recording: refusals 1 to 10, 23, 24, 16.
// Kept: eight parameters, the C interface.
#[unsafe(no_mangle)]
pub extern "C" fn sw_check_report(
    sheet: &[u8],
    rule: usize,
    recording: &[u8],
    claimed: &[[u64; VIOLATION_WORDS]],
    difference: &mut u32,
    entry: &mut usize,
    tick: &mut u64,
    step: &mut u64,
) -> u32
    ensures value { result ≡ number (checked_report sheet.now rule recording.now (violations_in claimed.now)) }
    ensures difference_after { difference.new ≡ or_kept comparison_number (checked_report sheet.now rule recording.now (violations_in claimed.now)) difference.old }
    ensures entry_after { entry.new ≡ or_kept entry_number (checked_report sheet.now rule recording.now (violations_in claimed.now)) entry.old }
    ensures tick_after { tick.new ≡ or_kept tick_number (checked_report sheet.now rule recording.now (violations_in claimed.now)) tick.old }
    ensures step_after { step.new ≡ or_kept step_number (checked_report sheet.now rule recording.now (violations_in claimed.now)) step.old }
{
    exports_reports::sw_check_report(
        sheet, rule, recording, claimed, difference, entry, tick, step,
    )
}

// Writes the complete report of a sheet's rule over a recording at the start of the list, and answers how many violations it has: refusals 1 to 10, 23, 24, 16, 22.
#[unsafe(no_mangle)]
pub extern "C" fn sw_complete_report(
    sheet: &[u8],
    rule: usize,
    recording: &[u8],
    report: &mut [[u64; VIOLATION_WORDS]],
    written: &mut usize,
) -> u32
    ensures value { result ≡ number (delivered_report sheet.now rule recording.now (length report.old)) }
    ensures report_after { violations_in report.new ≡ list_with (delivered_report sheet.now rule recording.now (length report.old)) (violations_in report.old) }
    ensures written_after { written.new ≡ or_kept length (delivered_report sheet.now rule recording.now (length report.old)) written.old }
{
    exports_reports::sw_complete_report(sheet, rule, recording, report, written)
}
