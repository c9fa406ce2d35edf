// Keeping a calendar beside the stream, and filling one from recorded flag bytes.
ghost use Rattle.std.specs.Prelude.{◌≡◌};
ghost use Rattle.calendar.specs.Calendar.{cleared, filled};
ghost use Rattle.demand.specs.Contract.{opening_of, step_of, batch_of, OpenPromise, StepPromise, BatchPromise};
ghost use Rattle.demand.specs.CalendarDemand.{with_calendar};
ghost use Rattle.cell_runs.specs.States.{taken_from, counts_from};
ghost use Rattle.cell_runs.specs.Moves.{Stands};
ghost use Rattle.state_bytes.specs.States.{state_in, in_bytes};
ghost use Rattle.refusal.specs.Answer.{answered, KeptIfRefused};

use state_bytes::STATE_BYTES;

// Opens a rule as sw_open does, and zeroes the words; a last group under eight keeps its content.
#[unsafe(no_mangle)]
pub extern "C" fn sw_calendar_open(
    sheet: &[u8],
    rule: usize,
    history: &mut [u8],
    cells: &[u32],
    words: &mut [u64],
    state: &mut [u8; STATE_BYTES],
) -> u32
    ensures { OpenPromise Stands (with_calendar in_bytes) (state.old, words.old) (opening_of (answered result (state_in state.new)) sheet.now rule history.old cells.now history.new) (state.new, words.new) }
{
    exports_calendar::sw_calendar_open(sheet, rule, history, cells, words, state)
}

// Takes one flag byte as sw_step does, and marks its tick in the words.
// Kept: its parameters, the C interface.
#[unsafe(no_mangle)]
pub extern "C" fn sw_calendar_step(
    state: &mut [u8; STATE_BYTES],
    flag: u8,
    history: &mut [u8],
    cells: &mut [u32],
    report: &mut [u64],
    words: &mut [u64],
    reported: &mut usize,
    live: &mut usize,
) -> u32
    ensures step_promise { StepPromise Stands (with_calendar in_bytes) (state.old, words.old) (step_of (answered result (taken_from (state_in state.old) reported.new live.new)) flag history.old cells.old report.old history.new cells.new report.new) (state.new, words.new) }
    ensures kept_if_refused { KeptIfRefused result reported.old reported.new }
    ensures kept_if_refused_2 { KeptIfRefused result live.old live.new }
{
    exports_calendar::sw_calendar_step(state, flag, history, cells, report, words, reported, live)
}

// Takes flag bytes as sw_steps does, and marks the ticks that were taken in the words.
// Kept: its parameters, the C interface.
#[unsafe(no_mangle)]
pub extern "C" fn sw_calendar_steps(
    state: &mut [u8; STATE_BYTES],
    flags: &[u8],
    history: &mut [u8],
    cells: &mut [u32],
    report: &mut [u64],
    words: &mut [u64],
    taken: &mut usize,
    pairs: &mut usize,
    live: &mut usize,
) -> u32
    ensures batch_promise { BatchPromise Stands (with_calendar in_bytes) (state.old, words.old) (batch_of (answered result (counts_from (state_in state.old) taken.new pairs.new live.new)) flags.now history.old cells.old report.old history.new cells.new report.new) (state.new, words.new) }
    ensures kept_if_refused { KeptIfRefused result taken.old taken.new }
    ensures kept_if_refused_2 { KeptIfRefused result pairs.old pairs.new }
    ensures kept_if_refused_3 { KeptIfRefused result live.old live.new }
{
    exports_calendar::sw_calendar_steps(
        state, flags, history, cells, report, words, taken, pairs, live,
    )
}

// Zeroes the words; a last group under eight keeps its content.
#[unsafe(no_mangle)]
pub extern "C" fn sw_calendar_clear(words: &mut [u64])
    ensures { words.new ≡ cleared words.old }
{
    exports_calendar::sw_calendar_clear(words);
}

// Marks the ticks from `tick` on, each by its flag byte; ticks past the words are not kept.
#[unsafe(no_mangle)]
pub extern "C" fn sw_calendar_fill(words: &mut [u64], tick: u64, flags: &[u8])
    ensures { words.new ≡ filled words.old tick flags.now }
{
    exports_calendar::sw_calendar_fill(words, tick, flags);
}
