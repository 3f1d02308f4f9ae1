//! The numbers of documents.
ghost use Rattle.std.specs.Prelude.{◌≡◌, ◌^◌, ◌-◌, ◌≤ℤ◌, pos, negsuc};

/// A whole number from -2^63 to 2^64 - 1: what a document's number (RFC 8259 section 6) may be.
///
/// ```text
/// Doc::Whole(Whole::from_i64(-3))  // the document -3
/// ```
#[derive(Clone, Copy, Debug, PartialEq, Eq, Drop)]
pub struct Whole {
    /// The number, from -2^63 to 2^64 - 1.
    value: i128,
    ghost at_least: { negsuc (2 ^ 63 - 1) ≤ℤ value },
    ghost at_most: { value ≤ℤ pos (2 ^ 64 - 1) },
}

impl Whole {
    ghost use Rattle.mp_tree.specs.View.{number_of};

    /// The number of an `i64`. Equal numbers from here and from [`Whole::from_u64`] are equal values.
    ///
    /// ```text
    /// Whole::from_i64(7) == Whole::from_u64(7)  // true
    /// ```
    pub fn from_i64(value: i64) -> Whole
        ensures number { number_of result ≡ value }
    {
        Whole {
            value: i128::from(value),
        }
    }

    /// The number of a `u64`, as [`Whole::from_i64`] of one that is not below 0.
    ///
    /// ```text
    /// Whole::from_u64(u64::MAX).value()  // 18446744073709551615
    /// ```
    pub fn from_u64(natural: u64) -> Whole
        ensures number { number_of result ≡ pos natural }
    {
        Whole {
            value: i128::from(natural),
        }
    }

    /// The number, from -9,223,372,036,854,775,808 to 18,446,744,073,709,551,615.
    ///
    /// ```text
    /// Whole::from_i64(-3).value()  // -3
    /// ```
    pub fn value(&self) -> i128
        ensures number { result ≡ number_of self.now }
    {
        self.value
    }
}
