//! Hashed columns, by FNV-1a of 64 bits.

ghost use Rattle.std.specs.Prelude.{◌≡◌, ◌≤◌, ◌<◌, ◌∷◌, nat_eq};
ghost use Rattle.std.specs.List.{list_any};
ghost use Rattle.layout_meaning.specs.Columns.{fnv, fnv_step, hash_column, hash_columns, with_new};
ghost use Rattle.smallvec.specs.SmallVec.{HasRoomFor};

use smallvec::SmallVec;
use std::alloc::Global;

const FNV_START: u64 = 0xcbf2_9ce4_8422_2325;

const FNV_PRIME: u64 = 0x0000_0100_0000_01b3;

fn fnv_byte(state: u64, byte: u8) -> u64
    ensures { result ≡ fnv_step state byte }
{
    (state ^ u64::from(byte)).wrapping_mul(FNV_PRIME)
}

/// FNV-1a over the byte `seed` followed by `bytes`.
fn fnv1a(seed: u8, bytes: &[u8]) -> u64
    ensures { result ≡ fnv (seed ∷ bytes.now) }
{
    let mut state = fnv_byte(FNV_START, seed);
    for byte in bytes {
        state = fnv_byte(state, *byte);
    }
    state
}

fn column_of(seed: u8, bytes: &[u8], count: u32) -> u32
    requires { 0 < count }
    ensures { result ≡ hash_column count bytes.now seed }
{
    (fnv1a(seed, bytes) % u64::from(count)) as u32
}

/// The columns of the first hashes, repeats dropped. It takes no memory.
pub(crate) fn hashed(alloc: Global, count: u32, hashes: u8, bytes: &[u8]) -> SmallVec<u32, 4>
    requires some { 0 < count }
    requires few { hashes ≤ 4 }
    ensures { result.items ≡ hash_columns count bytes.now hashes }
{
    let mut columns = SmallVec::new(alloc);
    for seed in 0..hashes {
        put_new(&mut columns, column_of(seed, bytes, count));
    }
    columns
}

/// Puts a column last, unless it is there.
fn put_new(columns: &mut SmallVec<u32, 4>, column: u32)
    requires { HasRoomFor columns.old 1 }
    ensures items { columns.new.items ≡ with_new columns.old.items column }
    ensures capacity { columns.new.capacity ≡ columns.old.capacity }
{
    if !contains(columns.as_slice(), column) {
        columns.push_reserved(column);
    }
}

fn contains(columns: &[u32], column: u32) -> bool
    ensures { result ≡ list_any (nat_eq column) columns.now }
{
    columns.iter().any(|&other| column == other)
}
