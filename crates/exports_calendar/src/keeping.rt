// Keeping a calendar beside the stream, and filling one from recorded flag bytes.
ghost use Rattle.std.specs.Prelude.{◌≡◌};
ghost use Rattle.calendar.specs.Calendar.{cleared, filled};
ghost use Rattle.demand.specs.Contract.{opening_of, step_of, batch_of, OpenPromise, StepPromise, BatchPromise};
ghost use Rattle.demand.specs.CalendarDemand.{with_calendar};
ghost use Rattle.cell_runs.specs.States.{taken_from, counts_from};
ghost use Rattle.cell_runs.specs.Moves.{Stands};
ghost use Rattle.state_bytes.specs.States.{state_in, in_bytes};
ghost use Rattle.refusal.specs.Answer.{answered, KeptIfRefused};

use state_bytes::{STATE_BYTES, next_tick};

// Opens a rule as sw_open does, and zeroes the words; a last group under eight keeps its content.
pub fn sw_calendar_open(
    sheet: &[u8],
    rule: usize,
    history: &mut [u8],
    cells: &[u32],
    words: &mut [u64],
    state: &mut [u8; STATE_BYTES],
) -> u32
    ensures { OpenPromise Stands (with_calendar in_bytes) (state.old, words.old) (opening_of (answered result (state_in state.new)) sheet.now rule history.old cells.now history.new) (state.new, words.new) }
{
    let number = exports_watch::sw_open(sheet, rule, history, cells, state);
    if number == 0 {
        calendar_marks::clear(words);
    }
    number
}

// Takes one flag byte as sw_step does, and marks its tick in the words.
// Kept: its parameters, those of the C function of this name.
pub fn sw_calendar_step(
    state: &mut [u8; STATE_BYTES],
    flag: u8,
    history: &mut [u8],
    cells: &mut [u32],
    report: &mut [u64],
    words: &mut [u64],
    reported: &mut usize,
    live: &mut usize,
) -> u32
    ensures step_promise { StepPromise Stands (with_calendar in_bytes) (state.old, words.old) (step_of (answered result (taken_from (state_in state.old) reported.new live.new)) flag history.old cells.old report.old history.new cells.new report.new) (state.new, words.new) }
    ensures kept_if_refused { KeptIfRefused result reported.old reported.new }
    ensures kept_if_refused_2 { KeptIfRefused result live.old live.new }
{
    let tick = next_tick(state);
    let number = exports_watch::sw_step(state, flag, history, cells, report, reported, live);
    if number == 0 {
        calendar_marks::mark(words, tick, flag);
    }
    number
}

// Takes flag bytes as sw_steps does, and marks the ticks that were taken in the words.
// Kept: its parameters, those of the C function of this name.
pub fn sw_calendar_steps(
    state: &mut [u8; STATE_BYTES],
    flags: &[u8],
    history: &mut [u8],
    cells: &mut [u32],
    report: &mut [u64],
    words: &mut [u64],
    taken: &mut usize,
    pairs: &mut usize,
    live: &mut usize,
) -> u32
    ensures batch_promise { BatchPromise Stands (with_calendar in_bytes) (state.old, words.old) (batch_of (answered result (counts_from (state_in state.old) taken.new pairs.new live.new)) flags.now history.old cells.old report.old history.new cells.new report.new) (state.new, words.new) }
    ensures kept_if_refused { KeptIfRefused result taken.old taken.new }
    ensures kept_if_refused_2 { KeptIfRefused result pairs.old pairs.new }
    ensures kept_if_refused_3 { KeptIfRefused result live.old live.new }
{
    let tick = next_tick(state);
    let number = exports_watch::sw_steps(state, flags, history, cells, report, taken, pairs, live);
    if number == 0 {
        let count = *taken;
        calendar_marks::fill(words, tick, &flags[..count]);
    }
    number
}

// Zeroes the words; a last group under eight keeps its content.
pub fn sw_calendar_clear(words: &mut [u64])
    ensures { words.new ≡ cleared words.old }
{
    calendar_marks::clear(words);
}

// Marks the ticks from `tick` on, each by its flag byte; ticks past the words are not kept.
pub fn sw_calendar_fill(words: &mut [u64], tick: u64, flags: &[u8])
    ensures { words.new ≡ filled words.old tick flags.now }
{
    calendar_marks::fill(words, tick, flags);
}
