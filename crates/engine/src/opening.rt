// Opening a rule of a sheet.
ghost use Rattle.std.specs.Prelude.{◌≡◌, ◌≤◌, length};
ghost use Rattle.demand.specs.Contract.{opening_of, OpenPromise};
ghost use Rattle.cell_runs.specs.Moves.{Stands};
ghost use Rattle.engine.specs.States.{blank_code, by_value};
ghost use Rattle.engine.specs.Promises.{open_answer, opened_state, BodyOpened};

use crate::state::State;
use refusal::Refusal;

// Opens the rule with this body.
fn open_body(body: &[u8], history: &mut [u8], cells: &[u32]) -> Result<State, Refusal>
    requires { length body.now ≤ 512 }
    ensures { BodyOpened body.now history.old (length cells.now) result history.new }
{
    admission::admit_opening(body, history.len(), cells.len())?;
    ring::zero(history);
    Ok(State::fresh(body, history.len()))
}

// Opens a rule of a sheet over a lent history, which is zeroed, and a lent cell table, which is only measured: the first step sets up what it
// needs there.
pub fn open(sheet: &[u8], rule: usize, history: &mut [u8], cells: &[u32]) -> Result<State, Refusal>
    ensures { OpenPromise Stands by_value blank_code (opening_of (open_answer result) sheet.now rule history.old cells.now history.new) (opened_state result) }
{
    let place = sheet::find_rule(sheet, rule)?;
    open_body(
        &sheet[place.start..place.start + place.size],
        history,
        cells,
    )
}
