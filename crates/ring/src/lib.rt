// The history as a ring: tick q has its byte at q mod L.
#![tactic(auto)]

ghost use Rattle.std.specs.Prelude.{◌≡◌, ◌%◌, length, set, replicate};
ghost use Rattle.ring.specs.Ring.{byte_of};

// Zeroes a history.
pub fn zero(history: &mut [u8])
    ensures { history.new ≡ replicate (length history.old) 0 }
{
    history.fill(0);
}

// The byte of tick q: the flag byte given where q is t, else that of the history.
pub fn byte_of(history: &[u8], flag: u8, t: u64, q: u64) -> u8
    ensures { result ≡ byte_of history.now flag t q }
{
    if q == t {
        return flag;
    }
    if history.is_empty() {
        return 0;
    }
    let length = history.len() as u64;
    let at = (q % length) as usize;
    history[at]
}

// Stores the byte of tick t. This comes last in a step: where the history has no more bytes than the rule needs, byte t mod L still holds an older
// tick that the step reads.
pub fn remember(history: &mut [u8], t: u64, flag: u8)
    ensures { history.new ≡ set history.old (t % length history.old) flag }
{
    if history.is_empty() {
        return;
    }
    let length = history.len() as u64;
    let at = (t % length) as usize;
    history[at] = flag;
}
