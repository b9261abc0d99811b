//! What follows from the definitions alone.

ghost use Rattle.mlt_props.specs.Entries.{LastSettingCounts};

use crate::bin::Ends;

/// Of several settings of a name the last counts: after them the name has the value of the last one
/// that is of the name, or else its old value.
pub fn last_setting_counts<D: Ends>()
    ensures { LastSettingCounts D }
{}
