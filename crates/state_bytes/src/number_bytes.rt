// Numbers of 64 bits in lent bytes, low byte first.
ghost use Rattle.std.specs.Prelude.{◌≡◌, ◌+◌, ◌≤◌, length};
ghost use Rattle.words.specs.Words.{splice};
ghost use Rattle.state_bytes.specs.Numbers.{low_bytes, number_at};

// The number at a position.
#[tactic(auto, using(crate::proofs::Numbers::eight_worth))]
pub(crate) fn number_at(bytes: &[u8], at: usize) -> usize
    requires { at + 8 ≤ length bytes.now }
    ensures { result ≡ number_at bytes.now at }
{
    let mut eight = [0u8; 8];
    eight.copy_from_slice(&bytes[at..at + 8]);
    u64::from_le_bytes(eight) as usize
}

// Stores a number at a position.
#[tactic(auto, using(crate::proofs::Numbers::eight_placed))]
pub(crate) fn put_number(out: &mut [u8], at: usize, number: usize)
    requires { at + 8 ≤ length out.old }
    ensures { out.new ≡ splice out.old at (low_bytes 8 number) }
{
    out[at..at + 8].copy_from_slice(&(number as u64).to_le_bytes());
}
