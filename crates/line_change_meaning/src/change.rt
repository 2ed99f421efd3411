use rdf_meaning::Triple;

/// What a data line changes.
#[derive(Debug, Drop)]
pub enum Change {
    Add(Triple),
    Delete(Triple),
}
