//! What a store's refusal is for changes.

ghost use Rattle.std.specs.Prelude.{◌≡◌, ◌≢◌, Some};
ghost use Rattle.run_store.specs.Refused.{load_refusal_of};

use rdf_layout::StoreRefusal;
use rdf_triples::LoadRefusal;
use run_meaning::Which;

/// The refusal of changes for one of a store that has list ids left.
pub(crate) fn load_refusal(refusal: StoreRefusal) -> LoadRefusal
    requires { refusal ≢ StoreRefusal.Lists }
    ensures { load_refusal_of refusal ≡ Some result }
{
    match refusal {
        StoreRefusal::NoMemory => LoadRefusal::NoMemory,
        StoreRefusal::Triples => LoadRefusal::Limit(Which::Triples),
        StoreRefusal::Terms => LoadRefusal::Limit(Which::Terms),
        StoreRefusal::Lists => unreachable!(),
    }
}
