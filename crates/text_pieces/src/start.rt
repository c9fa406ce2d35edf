// How a rule's text begins.
ghost use Rattle.notation.specs.Reading.{rule_head};
ghost use Rattle.text_pieces.specs.Spots.{Found};

use crate::names::name_end;
use crate::scan::word_end;

// The position after "monitor ", a name and " : ", if they are there.
#[tactic(auto, using(crate::proofs::Parsing::rule_1, crate::proofs::Parsing::rule_2, crate::proofs::Parsing::rule_3))]
pub fn rule_start(text: &[u8]) -> Option<usize>
    ensures { Found text.now result (rule_head text.now) }
{
    let name = word_end(text, 0, b"monitor ")?;
    let after_name = name_end(text, name)?;
    word_end(text, after_name, b" : ")
}
