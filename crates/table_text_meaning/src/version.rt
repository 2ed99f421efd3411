/// The forms of tables as text.
#[derive(Clone, Copy, Debug, PartialEq, Eq)]
pub enum Version {
    /// `tables 1`: blank nodes have labels of one data file, whose name isn't written.
    First,
    /// `tables 2`: tables stand as they are. This form is the one that is written.
    Second,
}
