ghost use Rattle.std.specs.Prelude.{◌≡◌, ◌+◌, ℕ, IfOk, IfErr, OnOk};
ghost use Rattle.geom_valid.specs.Faults.{clause_of, IsAdmittedAs, IsFaultAt, IsRefusedFor};
ghost use Rattle.geom_valid.specs.declared.kinds.InvalidKind.{InvalidKind};
ghost use Rattle.point_set.specs.Shape.{IsWellShaped};
ghost use Rattle.point_set.specs.Validity.{IsFirstFault, IsValid};

use crate::fault::first_fault;
use crate::kinds::AdmitFault;
use point_set::{Figure, Valid};
use std::alloc::Global;

/// Admits a figure that is valid, and else answers its first fault: of the first area that fails a clause, the first clause
/// that it fails, in the order of `InvalidKind`.
///
/// # Errors
/// The first fault, or `NoMemory`.
pub fn admit(alloc: Global, f: Figure) -> Result<Valid, AdmitFault>
    requires shaped { IsWellShaped f }
    // Ok: the same figure, and it is valid.
    ensures same { IfOk result (λ v. v ≡ f) }
    ensures valid { OnOk result (IsValid f) }
    ensures admitted { IsValid f → IsAdmittedAs result f }
    // An error: the first fault.
    ensures fault { IfErr result (IsRefusedFor f) }
    ensures faulty { (place : ℕ) (which : InvalidKind) → IsFirstFault f place (clause_of which) → IsFaultAt result which (place + 1) }
{
    match first_fault(alloc, &f)? {
        Some(fault) => Err(AdmitFault::Bad(fault.kind, fault.element)),
        None => Ok(Valid::seal(f)),
    }
}
