// The state's parts in their places.
ghost use Rattle.std.specs.Prelude.{◌≡◌, ◌≤◌, ◌<◌, length, take};
ghost use Rattle.state_bytes.specs.Numbers.{number_at};
ghost use Rattle.state_bytes.specs.States.{loaded, stored, moved_bytes};

use crate::STATE_BYTES;
use crate::number_bytes::{number_at, put_number};
use engine::State;
use sheet::MAX_BODY;

// Where the numbers of a state lie, after the bytes for its body.
const SIZE_AT: usize = MAX_BODY;

const OPENED_AT: usize = 520;

const NEXT_AT: usize = 528;

const LIVE_AT: usize = 536;

// The next tick that the bytes hold.
pub fn next_tick(state: &[u8; STATE_BYTES]) -> u64
    ensures value { result ≡ number_at state.now 528 }
    ensures state_len { length state.now ≡ 544 }
{
    number_at(state, NEXT_AT) as u64
}

// Fills `body` with the first bytes.
fn load_body(state: &[u8], body: &mut [u8])
    requires { length body.old ≤ length state.now }
    ensures { body.new ≡ take (length body.old) state.now }
{
    let length = body.len();
    body.copy_from_slice(&state[..length]);
}

// The engine's state that the bytes hold.
pub fn load(state: &[u8; STATE_BYTES]) -> State
    ensures value { result ≡ loaded state.now }
    ensures state_len { length state.now ≡ 544 }
{
    let mut body = [0u8; MAX_BODY];
    load_body(state, &mut body);
    State {
        body,
        size: number_at(state, SIZE_AT),
        opened: number_at(state, OPENED_AT),
        next: next_tick(state),
        live: number_at(state, LIVE_AT),
    }
}

// Stores a state.
pub fn store(bytes: &mut [u8; STATE_BYTES], state: State)
    ensures { bytes.new ≡ stored state }
{
    bytes[..MAX_BODY].copy_from_slice(&state.body);
    put_number(bytes, SIZE_AT, state.size);
    put_number(bytes, OPENED_AT, state.opened);
    put_number(bytes, NEXT_AT, state.next as usize);
    put_number(bytes, LIVE_AT, state.live);
}

// Stores another next tick and live count.
pub fn store_progress(state: &mut [u8; STATE_BYTES], next: u64, live: usize)
    ensures state_after { state.new ≡ moved_bytes state.old next live }
    ensures next_fits { next < 18446744073709551616 }
{
    put_number(state, NEXT_AT, next as usize);
    put_number(state, LIVE_AT, live);
}
