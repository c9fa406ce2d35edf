// Opening a rule, and stepping it by one flag byte or by many.
ghost use Rattle.demand.specs.Contract.{opening_of, step_of, batch_of, OpenPromise, StepPromise, BatchPromise};
ghost use Rattle.cell_runs.specs.States.{taken_from, counts_from};
ghost use Rattle.cell_runs.specs.Moves.{Stands};
ghost use Rattle.state_bytes.specs.States.{state_in, in_bytes};
ghost use Rattle.refusal.specs.Answer.{answered, KeptIfRefused};

use state_bytes::STATE_BYTES;

// Opens a rule of a sheet over a lent history, which is zeroed, and a lent cell table, which is only measured: refusals 1 to 15, 23, 24,
// 17, 18.
#[unsafe(no_mangle)]
pub extern "C" fn sw_open(
    sheet: &[u8],
    rule: usize,
    history: &mut [u8],
    cells: &[u32],
    state: &mut [u8; STATE_BYTES],
) -> u32
    ensures { OpenPromise Stands in_bytes state.old (opening_of (answered result (state_in state.new)) sheet.now rule history.old cells.now history.new) state.new }
{
    exports_watch::sw_open(sheet, rule, history, cells, state)
}

// Takes one flag byte: refusals 21, 17 to 20.
// Kept: its parameters, the C interface.
#[unsafe(no_mangle)]
pub extern "C" fn sw_step(
    state: &mut [u8; STATE_BYTES],
    flag: u8,
    history: &mut [u8],
    cells: &mut [u32],
    report: &mut [u64],
    reported: &mut usize,
    live: &mut usize,
) -> u32
    ensures step_promise { StepPromise Stands in_bytes state.old (step_of (answered result (taken_from (state_in state.old) reported.new live.new)) flag history.old cells.old report.old history.new cells.new report.new) state.new }
    ensures kept_if_refused { KeptIfRefused result reported.old reported.new }
    ensures kept_if_refused_2 { KeptIfRefused result live.old live.new }
{
    exports_watch::sw_step(state, flag, history, cells, report, reported, live)
}

// Takes flag bytes one after another, each as sw_step does, and writes pairs of tick and deciding step. It stops before a step for which fewer than
// 2 * (delay + 1) report words are left, and where the tick numbers end; where its first step is refused by 21, 17, 18 or 20, it is refused itself.
// Kept: its parameters, the C interface.
#[unsafe(no_mangle)]
pub extern "C" fn sw_steps(
    state: &mut [u8; STATE_BYTES],
    flags: &[u8],
    history: &mut [u8],
    cells: &mut [u32],
    report: &mut [u64],
    taken: &mut usize,
    pairs: &mut usize,
    live: &mut usize,
) -> u32
    ensures batch_promise { BatchPromise Stands in_bytes state.old (batch_of (answered result (counts_from (state_in state.old) taken.new pairs.new live.new)) flags.now history.old cells.old report.old history.new cells.new report.new) state.new }
    ensures kept_if_refused { KeptIfRefused result taken.old taken.new }
    ensures kept_if_refused_2 { KeptIfRefused result pairs.old pairs.new }
    ensures kept_if_refused_3 { KeptIfRefused result live.old live.new }
{
    exports_watch::sw_steps(state, flags, history, cells, report, taken, pairs, live)
}
