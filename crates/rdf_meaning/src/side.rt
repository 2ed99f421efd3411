/// A side of the store: entities are subjects (`Direct`) or objects (`Reverse`).
#[derive(Clone, Copy, Debug, PartialEq, Eq, Hash)]
pub enum SideName {
    Direct,
    Reverse,
}
