//! Laws of printing and reading, each the contract of a function that does nothing.

ghost use Rattle.wh_system_print.specs.SystemText.{system_text};
ghost use Rattle.wh_read.specs.Reading.{Reads};
ghost use Rattle.wh_system.specs.SystemView.{system_data};
ghost use Rattle.wh_system.specs.Systems.{SystemData};
ghost use Rattle.wh_system.specs.WellMade.{IsWellMadeSystem};

use wh_system::System;

/// The canonical text of a well-made system is a text of that system: reading what was printed gives it back.
pub fn canonical_texts_are_read_back()
    ensures { (d : SystemData) → IsWellMadeSystem d → Reads (system_text d) d }
{}

/// The text of a system of the program, which is always well made, is read back as this system.
pub fn printed_systems_are_read_back(system: &System)
    ensures { Reads (system_text (system_data system.now)) (system_data system.now) }
{
    system.is_well_made();
}
