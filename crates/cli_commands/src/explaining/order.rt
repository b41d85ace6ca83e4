//! Orders the cases of a text by their faults, in agreement with the fault for which the text is refused.
ghost use Rattle.std.specs.Prelude.{◌≡◌, Some, IfOk};
ghost use Rattle.std.specs.List.Sorted.{IsNonDecreasingBy};
ghost use Rattle.cli_commands.specs.Explaining.Lowest.{fault_number, first_fault};

use crate::inspecting::{Finding, Flaw, Place, cases_in};
use rbc_line::LineFault;
use std::alloc::{AllocError, Global};
use toml::Table;

/// Finds all faults in the tables of a text: the lowest fault first, and each fault's cases in the order of the file.
fn findings_in(alloc: Global, table: &Table) -> Result<Vec<Finding<'_>>, AllocError>
    ensures { IfOk result (λ v. IsNonDecreasingBy fault_number v.items) }
{
    let mut findings = cases_in(alloc, table)?;
    findings.sort_by_key(|finding| finding.fault().number())?;
    Ok(findings)
}

fn first_fault(findings: &[Finding]) -> Option<LineFault>
    ensures { result ≡ first_fault findings.now }
{
    match findings.first() {
        Some(finding) => Some(finding.fault()),
        None => None,
    }
}

/// Finds all faults in tables whose lowest fault is `lowest`. If the walk did not find a case of it first, the result
/// is only this fault. So the findings always agree with the fault for which the file is refused.
pub(crate) fn cases_from(
    alloc: Global,
    lowest: LineFault,
    table: &Table,
) -> Result<Vec<Finding<'_>>, AllocError>
    ensures first { IfOk result (λ v. first_fault v.items ≡ Some lowest) }
    ensures order { IfOk result (λ v. IsNonDecreasingBy fault_number v.items) }
{
    let findings = findings_in(alloc, table)?;
    if let Some(fault) = first_fault(&findings) {
        if fault == lowest {
            return Ok(findings);
        }
    }
    let mut unplaced = Vec::new(alloc);
    unplaced.push(Finding {
        place: Place::File,
        flaw: Flaw::Unplaced { fault: lowest },
    })?;
    Ok(unplaced)
}
