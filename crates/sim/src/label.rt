//! The label by which a script names a PDU.

use end_settings::Side;
use pdu_text::side_letter;
use std::fmt;
use std::fmt::{Display, Formatter};

/// The label of a PDU: `i1`, `i2`, .. for the interlocking, `f1`, `f2`, .. for the field element.
#[derive(Clone, Copy, Debug, PartialEq, Eq)]
pub struct Label {
    /// The end that made the PDU.
    pub side: Side,
    /// Its place among the PDUs of this end, from 0; the number in the label is one more.
    pub place: usize,
}

impl Display for Label {
    ghost use Rattle.std.specs.Prelude.{Some};
    ghost use Rattle.sim.specs.LabelText.{label_text};

    ghost output = { λ label. Some (label_text label) };

    fn fmt<W: fmt::Write>(&self, f: &mut Formatter<W>) -> fmt::Result {
        let letter = side_letter(self.side);
        let number = self.place.saturating_add(1);
        write!(f, "{letter}{number}")
    }
}
