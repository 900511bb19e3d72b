/// Why debug information has no structure, with the offset of the first entry in section order that is at fault.
#[derive(Clone, Copy, Debug, PartialEq, Eq, Drop)]
pub enum StructureFault {
    /// An inlined subroutine with more than 62 inlined subroutines among itself and its ancestors.
    TooDeep { offset: u32 },
    /// A subprogram or an inlined subroutine from which more than eight links follow one another.
    LinkCycle { offset: u32 },
}
