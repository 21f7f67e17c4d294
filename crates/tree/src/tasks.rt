// What the walk has to do for a slot.
ghost use Rattle.std.specs.Prelude.{◌≡◌};
ghost use Rattle.tree.specs.Walk.{task_of};

use fields::kinds::Kind;
use layout::Refusal;
use reached::END_MARK;

// A chain to follow: its first cluster and how many it has; of a directory also how many entries are inside.
#[derive(Drop)]
pub(crate) struct Task {
    pub(crate) first: u32,
    pub(crate) clusters: u32,
    pub(crate) inside: Option<u32>,
}

// What a slot leads to where directories may lie `below` further down: nothing where it is dead or an empty file.
pub(crate) fn task_of(kind: Kind, below: u32) -> Result<Option<Task>, Refusal>
    ensures { result ≡ task_of below kind }
{
    match kind {
        Kind::Dead => Ok(None),
        Kind::Bad => Err(Refusal::BadEntry),
        Kind::File { length, first } => {
            if (length == 0) & (first == END_MARK) {
                return Ok(None);
            }
            Ok(Some(Task {
                first,
                clusters: length.div_ceil(1024),
                inside: None,
            }))
        }
        Kind::Directory { length, first } => {
            if below == 0 {
                return Err(Refusal::BadEntry);
            }
            Ok(Some(Task {
                first,
                clusters: length.div_ceil(2),
                inside: Some(length),
            }))
        }
    }
}
