//! Laws of steps, as the contract of a function.

ghost use Rattle.edge_scan.specs.Steps.{ScanBegins, NoKeyIsLeft, StepsAreAScan};

/// A scan is under way before its first step, with an empty buffer. Where no key is left it is done. Once it is
/// done, or the buffer is full, its steps have given the next portion of the rows.
pub fn steps_make_a_scan()
    ensures begins { ScanBegins }
    ensures empty { NoKeyIsLeft }
    ensures portion { StepsAreAScan }
{}
