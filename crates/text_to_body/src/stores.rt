// Writes the bytes of bounds and flags.
ghost use Rattle.std.specs.Prelude.{◌≡◌, ◌&&◌, List, [], ◌∷◌, ◌++◌, ℕ, ◌+◌, ◌-◌, ◌%◌, ◌≤◌, ◌<◌, length, drop, take, get_or};
ghost use Rattle.notation.specs.Notation.{Base, End};
ghost use Rattle.notation.specs.Reading.{got, read_base, read_end, flag_token, read_flag, forall_token, read_forall};
ghost use Rattle.notation.specs.Bodies.{base_bound, base_bytes, end_bound, end_bytes, is_bound, flag_bytes, forall_bytes};
ghost use Rattle.text_to_body.specs.Work.{in_scope, sought};

use crate::codes::ORIGIN_KIND_BYTE;
use crate::scope::Scope;
use crate::values::bound_offset;
use nodes::{FLAG_CODE_BYTE, FORALL_CODE_BYTE, INFINITY_KIND_BYTE, VARIABLE_KIND_BYTE};
use text_pieces::{bound_end, is_word, run_end, starts_at};

// Writes two bytes.
fn put_two(out: &mut [u8], at: usize, first: u8, second: u8)
    requires { at + 2 ≤ length out.old }
    ensures { (length out.new ≡ length out.old) × (take (at + 2) out.new ≡ take at out.old ++ (first ∷ second ∷ [])) }
{
    out[at] = first;
    out[at + 1] = second;
}

// The byte of a variable, if there is one.
fn variable_byte(variable: Option<usize>) -> u8
    ensures { result ≡ (sought variable - 1) % 256 }
{
    variable.map_or(0, |variable| (variable % 256) as u8)
}

// The digit after the byte at a position; 0 where there is none.
// Kept: a number and no Option, since it is asked only where a flag was read, and its clause says only that.
fn digit_value(text: &[u8], at: usize) -> u8
    ensures { at + 1 < length text.now → result ≡ get_or text.now (at + 1) 0 - 48 }
{
    text.get(at.saturating_add(1))
        .map_or(0, |byte| byte.saturating_sub(b'0'))
}

impl<'a> Scope<'a> {
    // Writes a bound's kind and variable, and answers whether its name is bound.
    fn write_base(&self, at: usize, out: &mut [u8], written: usize) -> bool
        requires { (at ≤ length self.now.text.now) × (written + 2 ≤ length out.old) }
        ensures { (length out.new ≡ length out.old) × ((base : Base) (rest : List ℕ) → read_base (drop at self.now.text.now) ≡ got base rest → (result ≡ base_bound (in_scope self.now) base) × (take (written + 2) out.new ≡ take written out.old ++ base_bytes (in_scope self.now) base)) }
    {
        if starts_at(self.text, at, b"0") {
            put_two(out, written, ORIGIN_KIND_BYTE, 0);
            return true;
        }
        if is_word(self.text, at, b"infinity") {
            put_two(out, written, INFINITY_KIND_BYTE, 0);
            return true;
        }
        let found = self.variable(at);
        put_two(out, written, VARIABLE_KIND_BYTE, variable_byte(found));
        found.is_some()
    }

    // Writes a bound's four bytes, and answers whether its name is bound.
    pub(crate) fn write_bound(&self, at: usize, out: &mut [u8], written: usize) -> bool
        requires { (at ≤ length self.now.text.now) × (written + 4 ≤ length out.old) }
        ensures { (length out.new ≡ length out.old) × ((bound : End) (rest : List ℕ) → read_end (drop at self.now.text.now) ≡ got bound rest → (result ≡ end_bound (in_scope self.now) bound) × (take (written + 4) out.new ≡ take written out.old ++ end_bytes (in_scope self.now) bound)) }
    {
        let ok = self.write_base(at, out, written);
        let bits = bound_offset(self.text, at);
        put_two(
            out,
            written + 2,
            (bits % 256) as u8,
            (bits / 256 % 256) as u8,
        );
        ok
    }

    // Writes a flag's three bytes, from the name's position, and answers whether the name is bound.
    pub(crate) fn write_flag(&self, at: usize, out: &mut [u8], written: usize) -> bool
        requires { (at ≤ length self.now.text.now) × (written + 3 ≤ length out.old) }
        ensures { (length out.new ≡ length out.old) × ((name : List ℕ) (digit : ℕ) (rest : List ℕ) → read_flag (drop at self.now.text.now) ≡ got (flag_token name digit) rest → (result ≡ is_bound (in_scope self.now) name) × (take (written + 3) out.new ≡ take written out.old ++ flag_bytes (in_scope self.now) name digit)) }
    {
        let found = self.variable(at);
        let after_name = run_end(self.text, at, b'a', b'z');
        let k = digit_value(self.text, after_name);
        out[written] = FLAG_CODE_BYTE;
        put_two(out, written + 1, variable_byte(found), k);
        found.is_some()
    }

    // Writes a quantifier's nine bytes, from the position of its name, and answers whether the names of its bounds are bound.
    pub(crate) fn write_forall(&self, at: usize, out: &mut [u8], written: usize) -> bool
        requires { (at ≤ length self.now.text.now) × (written + 9 ≤ length out.old) × ((name : List ℕ) × (B₁ : End) × (B₂ : End) × (rest : List ℕ) × (read_forall (drop at self.now.text.now) ≡ got (forall_token name B₁ B₂) rest)) }
        ensures { (length out.new ≡ length out.old) × ((name : List ℕ) (B₁ B₂ : End) (rest : List ℕ) → read_forall (drop at self.now.text.now) ≡ got (forall_token name B₁ B₂) rest → (result ≡ (end_bound (in_scope self.now) B₁ && end_bound (in_scope self.now) B₂)) × (take (written + 9) out.new ≡ take written out.old ++ forall_bytes (in_scope self.now) B₁ B₂)) }
    {
        let after_name = run_end(self.text, at, b'a', b'z');
        let after_first = bound_end(self.text, after_name + 4).unwrap();
        out[written] = FORALL_CODE_BYTE;
        let first = self.write_bound(after_name + 4, out, written + 1);
        let second = self.write_bound(after_first + 2, out, written + 5);
        first && second
    }
}
