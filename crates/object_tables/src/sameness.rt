ghost use Rattle.std.specs.Prelude.{◌≡◌};
ghost use Rattle.object_tables.specs.Sameness.{IsSame, HasSameParts};

use crate::model::Model;

/// Where a second model is the same as a first one, the first is the same as the second. It does nothing: its contract is
/// this law.
pub fn same_back(first: &Model<'_>, second: &Model<'_>)
    requires { IsSame first.now second.now }
    ensures { IsSame second.now first.now }
{
    let _ = first.end();
    let _ = second;
}

/// Where a second model is the same as a first one, and a third as the second, the third is the same as the first. It does
/// nothing: its contract is this law.
pub fn same_through(first: &Model<'_>, second: &Model<'_>, third: &Model<'_>)
    requires first { IsSame first.now second.now }
    requires second { IsSame second.now third.now }
    ensures { IsSame first.now third.now }
{
    let _ = (first.end(), second.end());
    let _ = third;
}

/// Models with equal classes, identifiers and slots are equal. It does nothing: its contract is this law.
pub fn models_equal(first: &Model<'_>, second: &Model<'_>)
    requires { HasSameParts first.now second.now }
    ensures { second.now ≡ first.now }
{
    let _ = (first.end(), second.end());
}
