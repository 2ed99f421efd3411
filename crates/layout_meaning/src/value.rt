/// What stands under a predicate of an entity: one value by its id, or a list by its number. Lists are
/// numbered from 0, and the id of the list with the number n is -1 - n.
#[derive(Clone, Copy, Debug, PartialEq, Eq)]
pub enum Value {
    One(u32),
    Many(u64),
}
