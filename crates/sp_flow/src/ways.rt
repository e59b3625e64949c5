/// One way on from an instruction: the locations that it sets, as the bits of their set, and where it leads.
#[derive(Clone, Copy, Debug)]
pub struct Way {
    pub sets: u16,
    pub to: Option<usize>,
}

/// The ways on from an instruction, by the choice at it.
#[derive(Clone, Copy, Debug)]
pub struct Ways {
    pub untaken: Option<Way>,
    pub taken: Option<Way>,
}
