//! Laws of the definitions.
ghost use Rattle.om_modelfile.specs.Laws.{OneAnswer};

use om_ring::Ring;

/// A file says one model or one fault, but for want of memory.
pub fn one_answer<R: Ring>(_ring: &R)
    ensures { OneAnswer (R.ops _ring.now) }
{}
