// Why there is no line: the trace slice is shorter than the verdict's trace, or the buffer is shorter than the line.
#[derive(Clone, Copy, Debug, PartialEq, Eq, Drop)]
pub struct Short;
