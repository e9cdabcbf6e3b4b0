ghost use Rattle.std.specs.Prelude.{◌≡◌};

use object_tables::Model as TargetModel;
use repair_semantics::Report;
use std::marker::Model;
use std::mem;

/// What makes a target what is demanded of it (QVT 1.3, section 7.2 on enforcement). Contracts see it as the model that is made and
/// what that changes.
#[derive(Drop)]
pub struct Edits<'m> {
    pub(crate) made: TargetModel<'m>,
    pub(crate) report: Report,
}

impl<'m> Model for Edits<'m> {
    ghost use Rattle.enforce_mode.specs.Reports.{EditData};

    ghost Value = { EditData };

    ghost view = { λ e. record { made = e.made; report = e.report } };
}

impl<'m> Edits<'m> {
    /// How many objects are made, changed and deleted.
    pub fn report(&self) -> Report
        ensures { result ≡ self.now.report }
    {
        self.report
    }

    /// The target becomes the model that is made. It takes no memory, and can't fail.
    pub fn apply(self, target: &mut TargetModel<'m>)
        ensures { target.new ≡ self.entry.made }
    {
        drop(mem::replace(target, self.made));
    }
}
