// The pieces of a formula's text: names, offsets, bounds, flags.
ghost use Rattle.std.specs.Prelude.{◌≡◌, [], ◌∷◌, suc, ◌+◌, ◌-◌, ◌≤◌, ltb, cond};
ghost use Rattle.rule.specs.Body.{signed};
ghost use Rattle.nodes.specs.Table.{bound_at};
ghost use Rattle.notation.specs.Notation.{flag, offset_text, end_text, formula_text};
ghost use Rattle.notation.specs.Printing.{variable_name, digit_of, digits, offset_named, end_named};
ghost use Rattle.body_to_text.specs.Storing.{Adds};

use crate::writer::Writer;
use nodes::{BOUND_VARIABLE, Kind, OFFSET, kind_at, node_word};

// A variable's letter.
#[tactic(auto, unfolding(notation::specs::Printing::variable_name))]
fn letter(variable: u32) -> u8
    ensures { result ∷ [] ≡ variable_name variable }
{
    match variable {
        0 => b'x',
        1 => b'y',
        2 => b'z',
        3 => b'u',
        _ => b'v',
    }
}

// The digit of a number that is worth 1, 10, 100 or 1,000.
fn digit(number: u32, worth: u32) -> u8
    requires { 1 ≤ worth }
    ensures { result ≡ digit_of number worth }
{
    b'0' + (number / worth % 10) as u8
}

// How far below 0 an offset of 16 bits lies; 1 for a word past 16 bits, as the definition has it.
fn below_zero(bits: u32) -> u32
    requires { 32768 ≤ bits }
    ensures { result ≡ suc (65535 - bits) }
{
    65536u32.saturating_sub(bits).max(1)
}

impl Writer {
    // Writes a variable's name.
    pub(crate) fn put_name(&mut self, variable: u32)
        ensures { Adds (variable_name variable) self.old self.new }
    {
        self.put(letter(variable));
    }

    // Writes the digit that is worth so much, where the number has one.
    fn put_digit(&mut self, number: u32, worth: u32)
        requires { 1 ≤ worth }
        ensures { Adds (cond (ltb number worth) [] (digit_of number worth ∷ [])) self.old self.new }
    {
        if worth <= number {
            self.put(digit(number, worth));
        }
    }

    // Writes a number of at most four digits, with no 0 before them.
    fn put_digits(&mut self, number: u32)
        ensures { Adds (digits number) self.old self.new }
    {
        self.put_digit(number, 1000);
        self.put_digit(number, 100);
        self.put_digit(number, 10);
        self.put(digit(number, 1));
    }

    // Writes an offset of 16 bits: nothing for 0.
    #[tactic(auto, unfolding(notation::specs::Notation::offset_text, notation::specs::Printing::offset_named, rule::specs::Body::signed))]
    fn put_offset(&mut self, bits: u32)
        ensures { Adds (offset_text (offset_named (signed bits)) []) self.old self.new }
    {
        if bits == 0 {
            return;
        }
        if bits < 32768 {
            self.put(b'+');
            self.put_digits(bits);
            return;
        }
        self.put(b'-');
        self.put_digits(below_zero(bits));
    }

    // Writes the bound whose three words start at word `bound`.
    pub(crate) fn put_bound(&mut self, nodes: &[u32], bound: usize)
        ensures { Adds (end_text (end_named (bound_at nodes.now bound)) []) self.old self.new }
    {
        match kind_at(nodes, bound) {
            Kind::Origin => {
                self.put(b'0');
                self.put_offset(node_word(nodes, bound, OFFSET));
            }
            Kind::Infinity => self.put_word(b"infinity"),
            Kind::Variable => {
                self.put_name(node_word(nodes, bound, BOUND_VARIABLE));
                self.put_offset(node_word(nodes, bound, OFFSET));
            }
        }
    }

    // Writes flag k at a variable.
    pub(crate) fn put_flag(&mut self, variable: u32, k: u32)
        ensures { k ≤ 7 → Adds (formula_text (flag (variable_name variable) (48 + k)) []) self.old self.new }
    {
        self.put(b'@');
        self.put_name(variable);
        self.put(b'.');
        self.put(digit(k, 1));
    }
}
