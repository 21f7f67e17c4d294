// What the steps of a change hand on.
use tree::along::Place;

// A new entry: its mode, its length, and the dead slot that it takes, if there is one.
#[derive(Drop)]
pub(crate) struct NewEntry {
    pub mode: u32,
    pub count: usize,
    pub dead: Option<Place>,
}

// An entry's page as it is written: in any case, or where its data changes, which the model's page writes say by a flag too.
#[derive(Drop)]
pub(crate) struct EntryWrite {
    pub always: bool,
    pub at: usize,
    pub page: [u8; 512],
}
