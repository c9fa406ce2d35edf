// A whole sheet at once: what its rules need together, opening them, and stepping them by one flag byte or by many.
ghost use Rattle.std.specs.Prelude.{◌≡◌, length};
ghost use Rattle.refusal.specs.Answer.{number, or_kept, answered, KeptIfRefused};
ghost use Rattle.demand.specs.SetContract.{set_figures, set_opening_of, set_step_of, set_batch_of, all_cells, all_delays, largest, SetOpenPromise, SetStepPromise, SetBatchPromise, running_rules};
ghost use Rattle.cell_runs.specs.Moves.{Stands};
ghost use Rattle.running.specs.Records.{rules_in};
ghost use Rattle.set_stepping.specs.Answers.{set_taken, set_counts};

use running::RECORD_WORDS;

// What all rules of a sheet need together: refusals 1, 2, each rule's own 4 to 15, 23, 24 in rule order, 27.
pub fn sw_set_figures(
    sheet: &[u8],
    rules: &mut usize,
    history: &mut u64,
    cells: &mut u64,
    pairs: &mut u64,
) -> u32
    ensures value { result ≡ number (set_figures sheet.now) }
    ensures rules_after { rules.new ≡ or_kept length (set_figures sheet.now) rules.old }
    ensures history_after { history.new ≡ or_kept largest (set_figures sheet.now) history.old }
    ensures cells_after { cells.new ≡ or_kept all_cells (set_figures sheet.now) cells.old }
    ensures pairs_after { pairs.new ≡ or_kept all_delays (set_figures sheet.now) pairs.old }
{
    match set_admission::set_figures(sheet) {
        Ok(sums) => {
            *rules = sums.rules;
            *history = sums.history;
            *cells = sums.cells;
            *pairs = sums.pairs;
            0
        }
        Err(refusal) => refusal::number(refusal),
    }
}

// Opens all rules of a sheet over a lent history, which is zeroed, and a lent cell table, which is only measured: refusals 1, 2, 4 to 15, 23, 24, 27, 17, 18.
pub fn sw_set_open(
    sheet: &[u8],
    records: &mut [[u32; RECORD_WORDS]],
    history: &mut [u8],
    cells: &[u32],
) -> u32
    ensures { SetOpenPromise Stands (set_opening_of (answered result (running_rules sheet.now (rules_in records.new))) sheet.now (rules_in records.old) history.old cells.now (rules_in records.new) history.new) }
{
    match set_opening::open(sheet, records, history, cells) {
        Ok(()) => 0,
        Err(refusal) => refusal::number(refusal),
    }
}

// Takes one flag byte: refusals 21, 17 to 20.
// Kept: its parameters, those of the C function of this name.
pub fn sw_set_step(
    sheet: &[u8],
    records: &mut [[u32; RECORD_WORDS]],
    flag: u8,
    history: &mut [u8],
    cells: &mut [u32],
    report: &mut [u64],
    pairs: &mut usize,
    live: &mut usize,
) -> u32
    ensures set_step_promise { SetStepPromise Stands (set_step_of (answered result (set_taken pairs.new live.new sheet.now (rules_in records.new))) sheet.now (rules_in records.old) flag history.old cells.old report.old (rules_in records.new) history.new cells.new report.new) }
    ensures kept_if_refused { KeptIfRefused result pairs.old pairs.new }
    ensures kept_if_refused_2 { KeptIfRefused result live.old live.new }
{
    match set_stepping::step(sheet, records, flag, history, cells, report) {
        Ok(counts) => {
            *pairs = counts.reported;
            *live = counts.live;
            0
        }
        Err(refusal) => refusal::number(refusal),
    }
}

// Takes flag bytes one after another, each as sw_set_step does, and writes triples of rule, tick and deciding step.
// Kept: its parameters, those of the C function of this name.
pub fn sw_set_steps(
    sheet: &[u8],
    records: &mut [[u32; RECORD_WORDS]],
    flags: &[u8],
    history: &mut [u8],
    cells: &mut [u32],
    report: &mut [u64],
    taken: &mut usize,
    triples: &mut usize,
    live: &mut usize,
) -> u32
    ensures set_batch_promise { SetBatchPromise Stands (set_batch_of (answered result (set_counts taken.new triples.new live.new sheet.now (rules_in records.new))) sheet.now (rules_in records.old) flags.now history.old cells.old report.old (rules_in records.new) history.new cells.new report.new) }
    ensures kept_if_refused { KeptIfRefused result taken.old taken.new }
    ensures kept_if_refused_2 { KeptIfRefused result triples.old triples.new }
    ensures kept_if_refused_3 { KeptIfRefused result live.old live.new }
{
    match set_stepping::steps(sheet, records, flags, history, cells, report) {
        Ok(counts) => {
            *taken = counts.taken;
            *triples = counts.triples;
            *live = counts.live;
            0
        }
        Err(refusal) => refusal::number(refusal),
    }
}
