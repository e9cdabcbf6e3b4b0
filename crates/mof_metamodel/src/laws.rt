//! Laws of the definitions, each the contract of a function that does nothing.
ghost use Rattle.std.specs.Prelude.{◌↔◌};
ghost use Rattle.mof_metamodel.specs.WellMeta.{WellMeta};
ghost use Rattle.mof_metamodel.specs.MetaFaults.{HasNoFault, IsFirstFault, StandsFirst};

use crate::desc::MetaDesc;
use crate::fault::MetaFault;

/// A description is a metamodel exactly where no search finds a first fault in it.
pub fn well_where_no_fault(_desc: &MetaDesc)
    ensures { WellMeta _desc.now ↔ HasNoFault _desc.now }
{}

/// A fault that is found first stands, and none of a kind before it does.
pub fn first_fault_stands(_desc: &MetaDesc, _fault: &MetaFault)
    ensures { IsFirstFault _desc.now _fault.now.kind _fault.now.name → StandsFirst _desc.now _fault.now.kind }
{}
