// Runs of cells: what the cells of a formula and of a rule's instances hold (specs/), what moving them by a tick requires and gives, and the laws that
// make a tick's promise of the promises of its parts (proofs/). There is no code here but a type that the definitions speak of: the crate `instances` has it.
#![tactic(auto)]

// So many variables are known, the rule's own tick first: the position of each, and the flag byte at it.
#[derive(Clone, Copy)]
pub struct Variables {
    pub known: usize,
    pub pos: [u64; 5],
    pub bytes: [u8; 5],
}
