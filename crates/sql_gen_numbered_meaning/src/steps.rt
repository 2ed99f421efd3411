//! Numbered steps under a naming.

ghost use Rattle.std.specs.Prelude.{◌≡◌, ◌≤◌, ◌<◌, ◌^◌, ℕ, true, List};
ghost use Rattle.table_meaning.specs.Names.{is_name};
ghost use Rattle.sql_gen_step_laws.specs.Carried.{Name};
ghost use Rattle.sql_gen_numbered_meaning.specs.declared.numbered.NumberedBody.{NumberedBody};
ghost use Rattle.sql_gen_numbered_meaning.specs.Numbered.{written_from, written, shifted, on_from};
ghost use Rattle.sql_gen_numbered_meaning.specs.Namings.{KeepsApart, step_name};

/// Shifted steps, written behind k others, are the steps under the naming that begins at k.
pub fn shifted_steps_are_steps_further_on()
    ensures { (name : ℕ → Name) (k : ℕ) (bs : List NumberedBody) → written_from name k (shifted k bs) ≡ written (on_from k name) bs }
{}

/// Decimal names keep the numbers below 2^64 apart from one another and from the five tables.
pub fn decimal_names_are_apart()
    ensures { (n : ℕ) → n ≤ 2 ^ 64 → KeepsApart n step_name }
{}

/// Decimal names of numbers below 2^64 are names of the dialect.
pub fn decimal_names_are_names()
    ensures { (n : ℕ) → n < 2 ^ 64 → is_name (step_name n) ≡ true }
{}
