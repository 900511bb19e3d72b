//! The laws.
ghost use Rattle.std.specs.Prelude.{◌≡◌, ℕ, ◌*◌, ◌<◌, ◌≤◌, ◌∷◌, All, IsOk, List, [], Ok, codes, length};
ghost use Rattle.elf_image.specs.declared.part.Segment.{Segment};
ghost use Rattle.elf_image.specs.Image.{ProgramImage, address_of_name, bytes_of_name};
ghost use Rattle.elf_image.specs.Reading.{image_of};
ghost use Rattle.eh_frame.specs.Descriptions.{descriptions_of_both};
ghost use Rattle.dwarf_info.specs.Sections.{Sections};
ghost use Rattle.dwarf_info.specs.Units.{DebugInfo, debug_info_of};
ghost use Rattle.dwarf_line.specs.Names.{Texts};
ghost use Rattle.dwarf_line.specs.Lines.{Lines, lines_at};
ghost use Rattle.dwarf_inline.specs.Structure.{structure_of};
ghost use Rattle.scope_types.specs.Events.{retired_every};
ghost use Rattle.rv_run.specs.Run.{run_of};
ghost use Rattle.rv_run.specs.Schedule.{IsSchedule, Scheduled, instructions, schedule_of};
ghost use Rattle.sample_clock.specs.Samples.{Paths, samples};
ghost use Rattle.guest_gen.specs.Guest.{guest_of};
ghost use Rattle.guest_laws.specs.Known.{debug_information_names, no_lines, no_structure, without_units};
ghost use Rattle.guest_laws.specs.Read.{code_segment, guest_image, guest_scheduled, guest_sections};
ghost use Rattle.guest_laws.specs.Read.{most_guest_samples};

/// The schedule of a guest is read: it has four harts, and the slices that were drawn.
pub fn guest_schedules_are_read()
    ensures { (number : ℕ) → schedule_of (guest_of number).schedule ≡ Ok (guest_scheduled number) }
{}

/// The program of a guest is read, and no rule on files is broken. It has one segment, that of the code, and four
/// sections: the call frame information, the symbols, and the names of both.
pub fn guest_programs_are_read()
    ensures image { (number : ℕ) → image_of (guest_of number).elf ≡ Ok (guest_image number) }
    ensures segments { (number : ℕ) → (guest_image number).segments ≡ code_segment ∷ [] }
    ensures sections { (number : ℕ) → (guest_image number).sections ≡ guest_sections }
{}

/// The call frame information of a guest is read: `.debug_frame` has no fault, and there is no `.eh_frame`.
pub fn guest_frames_are_read()
    ensures read { (number : ℕ) → IsOk (descriptions_of_both
        (bytes_of_name (guest_image number).sections (codes ".debug_frame"))
        (bytes_of_name (guest_image number).sections (codes ".eh_frame"))
        (address_of_name (guest_image number).sections (codes ".eh_frame"))
        (guest_image number).segments) }
    ensures none { (number : ℕ)
        → bytes_of_name (guest_image number).sections (codes ".eh_frame") ≡ [] }
{}

/// A guest has no debug information: the sections that it would be read from are empty.
pub fn guests_have_no_debug_information()
    ensures { (number : ℕ) → All (λ name. bytes_of_name (guest_image number).sections name ≡ [])
        debug_information_names }
{}

/// Where `.debug_info` is empty, no units, entries, line tables and items of a structure are read, and none of these is
/// at fault.
pub fn absent_debug_information_is_read()
    ensures entries { (sections : Sections) → sections.info ≡ []
        → debug_info_of sections ≡ Ok (without_units sections) }
    ensures lines { (line : List ℕ) (texts : Texts) (segments : List Segment)
        → lines_at line texts segments [] ≡ Ok no_lines }
    ensures structure { (info : DebugInfo) (lines : Lines) (image : ProgramImage)
        → info.entries ≡ [] → structure_of info lines image ≡ Ok no_structure }
{}

/// A run has at most one sample of retired for each `period` instructions of its schedule's slices, whatever the
/// program, the input and the call paths are.
pub fn runs_have_few_samples()
    ensures { (path_of : Paths) (period : ℕ) (image : ProgramImage) (schedule : Scheduled)
        (input : List ℕ) → 0 < period → IsSchedule schedule
        → period * length (samples path_of (retired_every period) (run_of image schedule input).instants)
        ≤ instructions schedule.slices }
{}

/// The run of a guest, sampled each period of retired instructions that the guest has, has at most 41,113 samples.
pub fn guests_have_few_samples()
    ensures { (number : ℕ) (path_of : Paths)
        → length (samples path_of (retired_every (guest_of number).period)
        (run_of (guest_image number) (guest_scheduled number) (guest_of number).input).instants)
        ≤ most_guest_samples }
{}
