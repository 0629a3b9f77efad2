// The numbers of a place's record; its data lie beside them. The crates `place_reader` and `place_writer` read and write it.
#[derive(Clone, Copy)]
pub struct Fields {
    pub id: u64,
    pub client: u32,
    pub generation: u32,
    pub partition: u32,
    pub sequence: u64,
    pub header: u32,
}
