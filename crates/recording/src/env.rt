// The variables of a formula: the position of each.
ghost use Rattle.std.specs.Prelude.{◌≡◌, ◌<◌, get_or};
ghost use Rattle.recording.specs.Evaluating.{started, entered};

// Variables 0 to `depth` are bound, `depth` of them by quantifiers; the position of every other is 0.
// Kept: an array with its depth beside it, since the library has no heap.
#[derive(Clone, Copy)]
pub(crate) struct Env {
    pub depth: usize,
    pub pos: [u64; 5],
}

impl Env {
    // The environment of the rule at tick p.
    pub(crate) fn at_tick(p: u64) -> Env
        ensures { result ≡ started p }
    {
        Env {
            depth: 0,
            pos: [p, 0, 0, 0, 0],
        }
    }

    // The environment inside one more quantifier, whose variable stands at q.
    pub(crate) fn enter(self, q: u64) -> Env
        requires { self.depth < 4 }
        ensures { result ≡ entered self q }
    {
        let depth = self.depth + 1;
        let mut pos = self.pos;
        pos[depth] = q;
        Env { depth, pos }
    }

    // The position of a variable; 0 if there is none.
    pub(crate) fn position(self, variable: u32) -> u64
        ensures { result ≡ get_or self.pos variable 0 }
    {
        self.pos.get(variable as usize).copied().unwrap_or(0)
    }
}
