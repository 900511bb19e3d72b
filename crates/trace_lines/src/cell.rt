use scope_types::ProcId;

/// What a timeline shows of a hart at a moment.
#[derive(Clone, Copy, Debug, PartialEq, Eq, Drop)]
pub(crate) enum Cell {
    /// The hart had ended.
    Past,
    /// The hart had no sample yet.
    Early,
    /// The procedure of the hart's last sample.
    Shown(ProcId),
}
