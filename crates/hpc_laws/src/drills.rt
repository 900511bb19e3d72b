//! What is so of all drills.
ghost use Rattle.std.specs.Prelude.{◌≡◌, ◌⊎◌, ℕ, Err};
ghost use Rattle.command_line.specs.declared.status.InputFault.{InputFault};
ghost use Rattle.command_line.specs.declared.status.InputFault.TheVariants.{TooManyFrames, TooManyScopes};
ghost use Rattle.hpc_top.specs.commands.Drill.{drill_product};

use guest_laws::{
    absent_debug_information_is_read, guest_frames_are_read, guest_programs_are_read,
    guest_schedules_are_read, guests_have_few_samples, guests_have_no_debug_information,
};

/// A drill is refused for nothing but too many frames or scopes of its call paths, whatever its number is: no reader
/// refuses a guest, and its run has no more samples than a run may have.
pub fn drills_are_refused_for_long_paths_alone()
    ensures { (number : ℕ) (fault : InputFault) → drill_product number ≡ Err fault
        → (fault ≡ TooManyFrames) ⊎ (fault ≡ TooManyScopes) }
{
    guest_schedules_are_read();
    guest_programs_are_read();
    guest_frames_are_read();
    guests_have_no_debug_information();
    absent_debug_information_is_read();
    guests_have_few_samples();
}
