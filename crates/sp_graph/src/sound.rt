use sp_base::Seq;

/// The depths of a routine's instructions.
pub type RoutineDepths = Seq<u32>;

/// The depths of each routine's instructions.
pub type Depths = Seq<RoutineDepths>;

/// What the rules on structure give: the depth of each instruction.
#[derive(Debug, Drop)]
pub struct Sound {
    pub depths: Depths,
}
