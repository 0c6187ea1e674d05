//! What holds of each MAP that is read.

ghost use Rattle.plan_account.specs.Cover.{CellsCover};
ghost use Rattle.plan_account.specs.Deeds.{OutputsHaveDeeds};

use grant_machine::maps_are_bodies_from;

/// Intervals that follow one another have each minislot once, and as many together as there are.
pub fn cells_cover()
    ensures { CellsCover }
{}

/// A MAP of a scheduler has each of its minislots, so there is a deed of each output.
pub fn outputs_have_deeds()
    ensures { OutputsHaveDeeds }
{
    maps_are_bodies_from();
}
