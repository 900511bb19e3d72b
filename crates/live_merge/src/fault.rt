/// The limits of a run that is merged while it goes on: more than 1,048,576 samples; more than 4,194,304 frames of the
/// distinct raw paths of all columns; more than 8,388,608 scopes of their call paths.
#[derive(Clone, Copy, Debug, PartialEq, Eq, Drop)]
pub enum LiveFault {
    TooManySamples,
    TooManyFrames,
    TooManyScopes,
}
