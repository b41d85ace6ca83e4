ghost use Rattle.std.specs.Prelude.{◌≡◌, IfOk, map, string_bytes};
ghost use Rattle.rbc_line.specs.Views.{centre_of, line_of_rows};

use crate::parts::{Centre, Rows};
use std::alloc::{AllocError, Global};

impl Rows {
    /// A copy of the lists, of the same line.
    pub(crate) fn copied(&self, alloc: Global) -> Result<Rows, AllocError>
        ensures line { IfOk result (λ rows. line_of_rows rows ≡ line_of_rows self.now) }
        ensures sections { IfOk result (λ rows. rows.sections.items ≡ self.now.sections.items) }
    {
        Ok(Rows {
            nid_c: self.nid_c,
            centres: copied_centres(alloc, &self.centres)?,
            tracks: copied_names(alloc, &self.tracks)?,
            sections: Vec::from_slice(alloc, &self.sections)?,
            trains: Vec::from_slice(alloc, &self.trains)?,
        })
    }
}

fn copied_centres(alloc: Global, centres: &[Centre]) -> Result<Vec<Centre>, AllocError>
    ensures { IfOk result (λ copy. map centre_of copy.items ≡ map centre_of centres.now) }
{
    let mut copy = Vec::with_capacity(alloc, centres.len())?;
    for centre in centres {
        let name = String::from_str(alloc, centre.name.as_str())?;
        copy.push(Centre {
            name,
            nid_rbc: centre.nid_rbc,
        })?;
    }
    Ok(copy)
}

fn copied_names(alloc: Global, names: &[String]) -> Result<Vec<String>, AllocError>
    ensures { IfOk result (λ copy. map string_bytes copy.items ≡ map string_bytes names.now) }
{
    let mut copy = Vec::with_capacity(alloc, names.len())?;
    for name in names {
        copy.push(String::from_str(alloc, name.as_str())?)?;
    }
    Ok(copy)
}
