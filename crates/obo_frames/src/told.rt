//! Lines with what they say, and where they stand.
ghost use Rattle.std.specs.Prelude.{◌≡◌};
ghost use Rattle.obo_frames.specs.Telling as spec;

use obo_clause::Line;
use obo_tags::FrameKind;

/// Where a line stands: in a frame of this kind, and before all clauses there or not.
#[derive(Clone, Copy)]
pub struct Place {
    /// The kind of the frame.
    pub kind: FrameKind,
    /// Whether no clause of the frame stands before it.
    pub is_first: bool,
}

/// What the line of a number says.
#[derive(Drop)]
pub struct Told {
    /// The number of the line, from 1.
    pub line: u32,
    /// What the line says.
    pub said: Line,
}

/// Where the first line of a file stands.
pub fn start() -> Place
    ensures { result ≡ spec.start }
{
    Place {
        kind: FrameKind::Header,
        is_first: true,
    }
}

/// Where a line stands behind one that says this.
pub fn place_after(place: Place, said: &Line) -> Place
    ensures { result ≡ spec.place_after place said.now }
{
    match said {
        Line::Blank => place,
        Line::Frame(begun) => Place {
            kind: *begun,
            is_first: true,
        },
        Line::Content(_) => Place {
            kind: place.kind,
            is_first: false,
        },
    }
}
