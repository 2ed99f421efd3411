//! The law of the calendar: numbers of days are those of the proleptic Gregorian calendar, and those that `jiff` gives.
#![tactic(auto)]

ghost use Rattle.std.specs.Prelude.{◌≡◌, ℕ, ◌+◌, ◌<◌, ◌≤◌, pos, ◌+ℤ◌};
ghost use Rattle.rdf_value_meaning.specs.Calendar.{days_in_month, day_number};
ghost use Rattle.jiff_core.specs.Calendar.{days_from_civil};

/// 1 January 1970 has the number 0, and the day after a day has the next number: in a month, from a
/// month to the next one, and from a year to the next one, in which a month has its days and a leap year
/// its 29 February. So each date from year 0 on has the number of its place in the calendar.
pub fn days_are_gregorian()
    ensures epoch { day_number 1970 1 1 ≡ pos 0 }
    ensures next_day { (y m d : ℕ) → 1 ≤ d → d < days_in_month y m → day_number y m (d + 1) ≡ day_number y m d +ℤ pos 1 }
    ensures next_month { (y m : ℕ) → 1 ≤ m → m < 12 → day_number y (m + 1) 1 ≡ day_number y m (days_in_month y m) +ℤ pos 1 }
    ensures next_year { (y : ℕ) → day_number (y + 1) 1 1 ≡ day_number y 12 31 +ℤ pos 1 }
    ensures jiff { (y m d : ℕ) → 1 ≤ d → days_from_civil (pos y) m d ≡ day_number y m d }
{}
