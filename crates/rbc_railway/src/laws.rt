//! The theorem, of a railway at hand.

ghost use Rattle.rbc_railway.specs.Railways.{IsSafeRailway};

use crate::railway::{Railway, known};

/// Each railway is safe, whichever calls made it.
pub fn each_railway_is_safe(railway: &Railway)
    ensures { IsSafeRailway railway.now }
{
    known(&railway.line);
}
