ghost use Rattle.std.specs.Prelude.{◌≡◌};
ghost use Rattle.command_line.specs.Kind.{row_of};

/// The files that commands fetch.
#[derive(Clone, Copy, Debug, PartialEq, Eq)]
pub enum FileKind {
    Program,
    Input,
    Schedule,
    Measurement,
    Database,
    Trace,
}

/// What is so of a kind of file: its word in messages, and the most bytes that a file of it may have.
#[derive(Clone, Copy)]
pub struct KindRow {
    pub word: &'static str,
    pub limit: u64,
}

/// The row of a kind in the table of all kinds.
pub fn row_of(file: FileKind) -> KindRow
    ensures word { result.word.now ≡ (row_of file).word }
    ensures limit { result.limit ≡ (row_of file).limit }
{
    let (word, limit) = match file {
        FileKind::Program => ("program", 67_108_864),
        FileKind::Input => ("input", 1_048_576),
        FileKind::Schedule => ("schedule", 4_194_304),
        FileKind::Measurement => ("measurement", 33_554_432),
        FileKind::Database => ("database", 2_147_483_648),
        FileKind::Trace => ("trace", 67_108_864),
    };
    KindRow { word, limit }
}

/// A file to be fetched, of this kind and with this name.
#[derive(Clone, Copy)]
pub struct Want<'a> {
    pub file: FileKind,
    pub name: &'a [u8],
}
