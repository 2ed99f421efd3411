use rdf_meaning::Text;
use table_meaning::Schema;

/// A table's columns under its name.
#[derive(Debug, Drop)]
pub struct NamedSchema {
    pub name: Text,
    pub schema: Schema,
}
