//! `Limits`: how much one run of the program takes in.
ghost use Rattle.std.specs.Prelude.{◌≡◌};
ghost use Rattle.rel_io.specs.Limits as spec;

/// How many files, bytes, lines and derived facts a run takes. What is beyond a limit is refused by its name.
#[derive(Clone, Copy, Debug, PartialEq, Eq)]
pub struct Limits {
    /// How many files there may be, inputs and imports together.
    pub files: u32,
    /// How many bytes the listed files may have together, and how many the catalog and each term file may have.
    pub bytes: u64,
    /// How many bytes a line may have, without its end.
    pub line: u32,
    /// How many lines a term file may have.
    pub seed_lines: u32,
    /// How many facts may be derived in a step of reasoning.
    pub facts: u64,
}

impl Limits {
    /// The limits of the program.
    pub fn release() -> Limits
        ensures { result ≡ record { files = spec.files; bytes = spec.bytes; line = spec.line; seed_lines = spec.seed_lines; facts = spec.facts } }
    {
        Limits {
            files: 256,
            bytes: 268_435_456,
            line: 1_048_576,
            seed_lines: 1_000_000,
            facts: 67_108_864,
        }
    }
}
