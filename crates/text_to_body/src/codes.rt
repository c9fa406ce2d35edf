// The codes of formulas and the kinds of bounds, as bytes of a body, that only the text's translation needs; `nodes` has the others.
use nodes::{BESIDE_CODE, ORIGIN_KIND, THEN_CODE};

pub(crate) const THEN_CODE_BYTE: u8 = THEN_CODE as u8;

pub(crate) const BESIDE_CODE_BYTE: u8 = BESIDE_CODE as u8;

pub(crate) const ORIGIN_KIND_BYTE: u8 = ORIGIN_KIND as u8;
