// What an opening and its steps carry from call to call.
ghost use Rattle.std.specs.Prelude.{◌≡◌, ◌≤◌, length};
ghost use Rattle.std.specs.Result.{result_map_both};
ghost use Rattle.engine.specs.States.{fresh_code, blank_code, body_of};

use refusal::Refusal;
use sheet::MAX_BODY;

// The rule's body in the first `size` bytes, the length of the opened history, the tick to be taken, and how many ticks are live.
#[derive(Clone, Copy, Debug, PartialEq, Eq)]
pub struct State {
    pub body: [u8; MAX_BODY],
    pub size: usize,
    pub opened: usize,
    pub next: u64,
    pub live: usize,
}

// The state of no rule: its body is empty, and every step refuses it by 21.
impl Default for State {
    fn default() -> State
        ensures { result ≡ blank_code }
    {
        State {
            body: [0u8; MAX_BODY],
            size: 0,
            opened: 0,
            next: 0,
            live: 0,
        }
    }
}

impl State {
    // The state that an accepted opening gives.
    pub(crate) fn fresh(body: &[u8], opened: usize) -> State
        requires { length body.now ≤ 512 }
        ensures { result ≡ fresh_code body.now opened }
    {
        let mut room = [0u8; MAX_BODY];
        room[..body.len()].copy_from_slice(body);
        State {
            body: room,
            size: body.len(),
            opened,
            next: 0,
            live: 0,
        }
    }

    // The rule's body, or 21: no opening gives a size above the room for it.
    #[tactic(auto, unfolding(crate::specs::States::body_of))]
    pub(crate) fn rule_body(&self) -> Result<&[u8], Refusal>
        ensures { result_map_both (λ body. body.now) (λ refusal. refusal) result ≡ body_of self.now }
    {
        if MAX_BODY < self.size {
            return Err(Refusal::StateNotOpened);
        }
        Ok(&self.body[..self.size])
    }
}
