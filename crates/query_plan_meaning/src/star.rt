use query_meaning::Slot;
use rdf_meaning::SideName;
use sqlite_items::Items;

/// A pattern of a star, without the place that is the star's entity; its number is the pattern's.
#[derive(Debug, Drop)]
pub struct Arm {
    pub pattern: u32,
    pub pred: Slot,
    pub value: Slot,
}

/// The arms of a star.
#[derive(Debug, Drop)]
pub enum StarBody {
    /// All required arms, and each optional one where the entity has it.
    Both {
        required: Items<Arm>,
        optional: Items<Arm>,
    },
    /// All arms of the one list, or all of the other.
    Either {
        left: Items<Arm>,
        right: Items<Arm>,
    },
}

/// Patterns with one entity: their subject on the direct side, their object on the reverse one.
#[derive(Debug, Drop)]
pub struct Star {
    pub entity: Slot,
    pub side: SideName,
    pub body: StarBody,
}
