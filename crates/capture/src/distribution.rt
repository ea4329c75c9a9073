//! How often values came, by powers of two.

ghost use Rattle.std.specs.Prelude.{◌≡◌, ◌<◌};
ghost use Rattle.capture.specs.Measures.{class_of, no_values, with_value};

/// How many classes of values there are.
pub const CLASSES: usize = 24;

/// How often values in milliseconds came. The first class has the value 0, the next ones 1, 2 to 3, 4 to 7, and so on;
/// the last one has all greater values.
#[derive(Clone, Copy, Debug, PartialEq, Eq)]
pub struct Distribution {
    /// The number of values in each class, at most 2^32 - 1.
    pub counts: [u32; CLASSES],
    /// The greatest value; 0 before the first.
    pub greatest: u32,
}

impl Distribution {
    /// Returns a distribution without values.
    pub fn new() -> Self
        // All counts are 0, and so is the greatest value.
        ensures { result ≡ no_values }
    {
        Distribution {
            counts: [0; CLASSES],
            greatest: 0,
        }
    }

    /// Adds a value in milliseconds.
    pub fn add(&mut self, value: u32)
        // Exactly the count of the value's class grows by 1, limited to 2^32 - 1, and the greatest value takes the
        // `value` in (`with_value`).
        ensures { self.new ≡ with_value self.old value }
    {
        let class = class(value);
        self.counts[class] = self.counts[class].saturating_add(1);
        self.greatest = self.greatest.max(value);
    }
}

/// Returns the class of a value in milliseconds.
pub fn class(value: u32) -> usize
    // The class is the number of binary digits of the `value`; the last class has all longer ones (`class_of`).
    ensures value { result ≡ class_of value }
    // The class is below `CLASSES`.
    ensures bound { result < CLASSES }
{
    let digits = 32 - value.leading_zeros() as usize;
    digits.min(CLASSES - 1)
}
