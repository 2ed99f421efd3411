//! A query as it is written.

ghost use Rattle.std.specs.Prelude.{◌≡◌, IfOk};
ghost use Rattle.sparql_query_meaning.specs.Queries.{syntax_of};
ghost use Rattle.sparql_grammar.specs.Written as grammar;

use crate::numbering::numbered_group;
use crate::shown::shown_of;
use query_meaning::{Group, Modifiers, Syntax};
use rdf_meaning::Text;
use sparql_grammar::Written;
use sqlite_items::Items;
use std::alloc::{AllocError, Global};

/// The query as it is written, with these names of its variables: patterns are numbered from 1 in order of the text, and a
/// variable that is shown twice stays at its first place.
pub fn syntax(alloc: Global, names: Items<Text>, written: Written) -> Result<Syntax, AllocError>
    ensures { IfOk result (λ s. s ≡ syntax_of names (grammar.written written)) }
{
    let Written {
        distinct,
        shown,
        elements,
        keys,
        slice,
    } = written;
    let read = Group { elements };
    let shown = shown_of(alloc, shown, &read)?;
    let group = numbered_group(alloc, &read)?;
    Ok(Syntax {
        names,
        group,
        modifiers: Modifiers {
            shown,
            distinct,
            keys,
            skip: slice.skip,
            most: slice.most,
        },
    })
}
