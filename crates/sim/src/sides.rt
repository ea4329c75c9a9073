//! One value for each end.

use end_settings::Side;

/// One value for each end.
#[derive(Clone, Copy, Debug, Drop)]
pub struct Sides<T> {
    /// The value of the interlocking.
    pub il: T,
    /// The value of the field element.
    pub fe: T,
}

impl<T> Sides<T> {
    /// Returns the value of an end.
    pub fn of(&self, side: Side) -> &T {
        match side {
            Side::Interlocking => &self.il,
            Side::FieldElement => &self.fe,
        }
    }

    /// Returns the value of an end for a change.
    pub fn of_mut(&mut self, side: Side) -> &mut T {
        match side {
            Side::Interlocking => &mut self.il,
            Side::FieldElement => &mut self.fe,
        }
    }
}

/// Returns the other end.
pub fn other(side: Side) -> Side {
    match side {
        Side::Interlocking => Side::FieldElement,
        Side::FieldElement => Side::Interlocking,
    }
}
