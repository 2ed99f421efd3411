//! What the literals of a datatype write.

/// The whole numbers from the least to the greatest, both included; `None` sets no bound.
#[derive(Clone, Copy, Debug)]
pub struct Range {
    pub least: Option<i128>,
    pub greatest: Option<i128>,
}

/// What the texts of a datatype's literals have to be.
#[derive(Clone, Copy, Debug)]
pub enum Form {
    AnyText,
    Truth,
    DecimalNumber,
    WholeNumber(Range),
    Moment,
}
