//! The law that colours that fit are taken.

ghost use Rattle.layout_choice.specs.Fit.{FitColoursAreTaken, OtherWaysAreTaken};

/// Counts of columns from 1 to 32 and hashes from 1 to 4 are not refused, and neither are colours that fit
/// these columns: what a colouring file for these counts says fits them.
pub fn colours_that_fit_are_taken()
    ensures given { FitColoursAreTaken }
    ensures others { OtherWaysAreTaken }
{}
